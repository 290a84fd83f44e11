// What a lexer gives.
use crm_outside::Text;
use rdf_terms::Refusal;
use turtle_tokens::TokenKind;

/// A token with its value, and where it stands in the text.
#[derive(Drop)]
pub struct Token {
    /// The kind.
    pub kind: TokenKind,
    /// The value. An IRI or a string has its escapes replaced; a prefixed name is its prefix directly followed by its local name,
    /// without the colon; a label stands without `_:` and an `@` word without `@`; numbers and words stand as they are spelled,
    /// and a mark has an empty value.
    pub text: Text,
    /// Of a prefixed name, the length of its prefix in bytes; else 0.
    pub cut: u32,
    /// The byte offset at which it begins.
    pub from: u64,
    /// The byte offset behind it.
    pub to: u64,
}

/// What comes next.
#[derive(Drop)]
pub enum Next {
    /// The next token.
    Token(Token),
    /// No token is certain before more bytes come.
    More,
    /// The text has ended.
    End,
    /// The text is refused with U1, G1 or L2.
    Refused(Refusal),
}
