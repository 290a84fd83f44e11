// What stands at the front of a text.

/// What stands at the front of a text.
#[derive(Clone, Copy)]
pub enum Front<Kind> {
    /// A token of this kind, of so many characters.
    Token(Kind, usize),
    /// No token.
    Nothing,
    /// More than 65,536 bytes that begin a token.
    Long,
}
