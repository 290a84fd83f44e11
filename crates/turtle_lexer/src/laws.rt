// A law over the definitions: it is the contract of a function with nothing to do.
ghost use Rattle.std.specs.Prelude.{ℕ, List};
ghost use Rattle.rdf_chars.specs.Decoding.{AreBytes};
ghost use Rattle.turtle_lexer.specs.Streams.{tokens};
ghost use Rattle.turtle_lexer.specs.Texts.{HasTokens};

/// What is said of bytes is what the standards say: they are no UTF-8 from a place on, or the tokens of their characters follow, each
/// the longest spelling behind a gap, with its value and its places.
pub fn bytes_have_tokens()
    ensures { (bytes : List ℕ) → AreBytes bytes → HasTokens bytes (tokens bytes) }
{}
