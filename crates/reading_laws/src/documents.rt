// Laws over the definitions: each is the contract of a function with nothing to do.
ghost use Rattle.std.specs.Prelude.{◌≡◌, ℕ, List, Option};
ghost use Rattle.rdf_terms.specs.declared.terms.Code.{Code};
ghost use Rattle.rdf_terms.specs.declared.triples.Records.{Records};
ghost use Rattle.rdf_reading.specs.Answers.Answer.{Read, Refuse};
ghost use Rattle.turtle_grammar.specs.Grammar.{Document, document};
ghost use Rattle.turtle_reader.specs.Answers.{answer, environment, records_of};
ghost use Rattle.reading_laws.specs.Meaning.{document_says, no_graph};
ghost use Rattle.reading_laws.specs.Spelling.{IsDocument};
ghost use Rattle.reading_laws.specs.Refusals.{read_from, IsRefused};

/// Where names and triples are answered, all the bytes were read, and they are a document of the grammar.
pub fn bytes_that_are_read_are_a_document()
    ensures some { (base : Option (List ℕ)) (bytes : List ℕ) (records : Records) → answer base bytes ≡ Read records →
        (d : Document) × IsDocument bytes d × (records ≡ records_of (document_says d (environment base) no_graph).store) }
    ensures one { (bytes : List ℕ) (d e : Document) → IsDocument bytes d → IsDocument bytes e → d ≡ e }
{}

/// Where a code is answered, its condition holds at the place.
pub fn bytes_are_refused_for_cause()
    ensures { (base : Option (List ℕ)) (bytes : List ℕ) (code : Code) (at : ℕ) → answer base bytes ≡ Refuse code at → IsRefused base bytes code at }
{}

/// What is read of the tokens of a document is what its tree means.
pub fn documents_mean_what_is_read()
    ensures { (base : Option (List ℕ)) (d : Document) → (read_from base (document d)).store ≡ (document_says d (environment base) no_graph).store }
{}
