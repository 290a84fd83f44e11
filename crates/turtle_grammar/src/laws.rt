// Laws over the grammar: each is the contract of a function with nothing to do.
ghost use Rattle.std.specs.Prelude.{◌≡◌, ◌↔◌, List, None};
ghost use Rattle.turtle_grammar.specs.Tokens.{Token};
ghost use Rattle.turtle_grammar.specs.Grammar.{Document, document, Viable};
ghost use Rattle.turtle_grammar.specs.Runs.{run, start};

/// Tokens are refused exactly where no document begins with them. So the first token that is refused is the first with which they have no continuation.
pub fn tokens_are_refused_where_no_document_begins()
    ensures { (ts : List Token) → (run start ts ≡ None) ↔ ¬ Viable ts }
{}

/// The tokens behind which a statement may begin, and nothing stands open, are those of the documents.
pub fn documents_lead_back_to_the_start()
    ensures { (ts : List Token) → (run start ts ≡ start) ↔ ((d : Document) × (ts ≡ document d)) }
{}

/// A list of tokens has at most one syntax tree.
pub fn documents_have_one_tree()
    ensures { (d e : Document) → document d ≡ document e → d ≡ e }
{}
