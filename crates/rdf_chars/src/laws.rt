// Laws over the definitions: each is the contract of a function with nothing to do.
ghost use Rattle.std.specs.Prelude.{ℕ, List};
ghost use Rattle.rdf_chars.specs.Steps.{start};
ghost use Rattle.rdf_chars.specs.Decoding.{decoded, AreBytes, Decodes};

/// What a reader of UTF-8 says of bytes one by one is what UTF-8 says of them all.
pub fn bytes_are_decoded()
    ensures { (bytes : List ℕ) → AreBytes bytes → Decodes bytes (decoded start bytes) }
{}
