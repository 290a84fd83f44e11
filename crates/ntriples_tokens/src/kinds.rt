// The kinds of token.

/// The kinds of token.
#[derive(Clone, Copy, PartialEq, Eq, Debug, Drop)]
pub enum Kind {
    /// An IRI in brackets.
    IriRef,
    /// A blank node with its label.
    Blank,
    /// A string in quotation marks.
    Str,
    /// A language tag behind an at sign.
    AtWord,
    /// The two carets before a datatype.
    Carets,
    /// A full stop.
    Dot,
    /// The end of a line.
    Eol,
}
