// Laws over the definitions: each is the contract of a function with nothing to do.
ghost use Rattle.std.specs.Prelude.{◌≡◌, ◌↔◌, ◌++◌, ℕ, List, Option};
ghost use Rattle.std.specs.List.{All};
ghost use Rattle.rdf_terms.specs.declared.terms.Code.{Code};
ghost use Rattle.rdf_terms.specs.declared.triples.Records.{Records};
ghost use Rattle.rdf_reading.specs.Answers.Answer.{Read, Refuse};
ghost use Rattle.ntriples_reader.specs.Feeding.{answer as lines_answer};
ghost use Rattle.ntriples_laws.specs.Canonical.{canonical_text, IsSame};
ghost use Rattle.turtle_reader.specs.Answers.{answer};
ghost use Rattle.reading_laws.specs.Narrow.{IsIri, IsBase, AreNarrow};
ghost use Rattle.reading_laws.specs.Numbering.{AreOrderly};
ghost use Rattle.reading_laws.specs.Refusal.{Refusal, Says};
ghost use Rattle.reading_laws.specs.Escapes.{StandsFor};
ghost use Rattle.reading_laws.specs.Lines.{LinesRefusal, LinesSay};
ghost use Rattle.text_patterns.specs.Machines.{Spells};
ghost use Rattle.turtle_tokens.specs.Machine.{turtle};
ghost use Rattle.turtle_tokens.specs.declared.kinds.TokenKind.TheVariants.{IriRef, Str};
ghost use Rattle.rdf_reading.specs.Values.{inside};
ghost use Rattle.turtle_lexer.specs.Values.{marks, value};
ghost use Rattle.turtle_grammar.specs.Tokens.{Token};
ghost use Rattle.turtle_grammar.specs.Grammar.{Document, document};
ghost use Rattle.turtle_environments.specs.Environments.{EnvironmentState};
ghost use Rattle.reading_laws.specs.Directives.{Part, all_behind, outset, set_by_document};

/// What is read is orderly: triples fit the names, and all is numbered by first coming.
pub fn what_is_read_is_orderly()
    ensures lines { (bytes : List ℕ) (r : Records) → lines_answer bytes ≡ Read r → AreOrderly r }
    ensures turtle { (base : Option (List ℕ)) (bytes : List ℕ) (r : Records) → answer base bytes ≡ Read r → AreOrderly r }
{}

/// The canonical lines of what was read of Turtle are read as N-Triples: the same names, and the same triples but for their places, in the same order.
pub fn canonical_lines_of_turtle_read_back()
    ensures { (base : Option (List ℕ)) (bytes : List ℕ) (r : Records) → IsBase base → answer base bytes ≡ Read r → AreNarrow r.names →
        (q : Records) × (lines_answer (canonical_text r) ≡ Read q) × IsSame q r }
{}

/// Each IRI that is read of Turtle is one: it has a scheme, and no character that an IRI may not have unescaped.
pub fn iris_that_are_read_are_iris()
    ensures { (base : Option (List ℕ)) (bytes : List ℕ) (r : Records) → IsBase base → answer base bytes ≡ Read r → All IsIri r.names.iris }
{}

/// A code with its place is answered exactly where it is the text's refusal.
pub fn texts_are_refused_for_their_cause()
    ensures { (base : Option (List ℕ)) (bytes : List ℕ) (code : Code) (at : ℕ) → (answer base bytes ≡ Refuse code at) ↔ Refusal base bytes code at }
{}

/// Names and triples are answered exactly where they are what the text says.
pub fn texts_are_read_for_what_they_say()
    ensures { (base : Option (List ℕ)) (bytes : List ℕ) (r : Records) → (answer base bytes ≡ Read r) ↔ Says base bytes r }
{}

/// What follows the tokens of a document stands in the environment of its directives.
pub fn directives_stand_for_what_follows()
    ensures { (d : Document) (ts : List Token) (e : EnvironmentState) → (prefix : List ℕ) ×
        (all_behind (outset e) (document d ++ ts) ≡ all_behind (record { part = Part.Statement; prefix = prefix; environment = set_by_document d e }) ts) }
{}

/// What stands between the brackets of an IRI or the quote marks of a string stands for the token's value, part by part.
pub fn values_are_those_of_the_parts()
    ensures iris { (chars : List ℕ) → Spells turtle IriRef chars → StandsFor (inside 1 chars) (value IriRef chars) }
    ensures strings { (chars : List ℕ) → Spells turtle Str chars → StandsFor (inside (marks chars) chars) (value Str chars) }
{}

/// The same of N-Triples: a code with its place is answered exactly where it is the text's refusal.
pub fn lines_are_refused_for_their_cause()
    ensures { (bytes : List ℕ) (code : Code) (at : ℕ) → (lines_answer bytes ≡ Refuse code at) ↔ LinesRefusal bytes code at }
{}

/// Names and triples are answered exactly where they are what the lines say.
pub fn lines_are_read_for_what_they_say()
    ensures { (bytes : List ℕ) (r : Records) → (lines_answer bytes ≡ Read r) ↔ LinesSay bytes r }
{}
