// The kinds of token.

/// The kinds of token of Turtle, by the names of the W3C's grammar.
#[derive(Clone, Copy, PartialEq, Eq, Debug, Drop)]
pub enum TokenKind {
    /// An IRI in angle brackets.
    IriRef,
    /// A prefix with its colon.
    PnameNs,
    /// A prefixed name.
    PnameLn,
    /// The label of a blank node.
    Blank,
    /// A word behind an at sign: a language tag, `@prefix` or `@base`.
    AtWord,
    /// A whole number.
    Integer,
    /// A number with a point.
    Decimal,
    /// A number with an exponent.
    Double,
    /// A string in any of the four forms.
    Str,
    /// The word `a`.
    A,
    /// The word `true`.
    True,
    /// The word `false`.
    False,
    /// The word `PREFIX` in any letter case.
    Prefix,
    /// The word `BASE` in any letter case.
    Base,
    /// A full stop.
    Dot,
    /// A semicolon.
    Semicolon,
    /// A comma.
    Comma,
    /// An opening square bracket.
    OpenSquare,
    /// A closing square bracket.
    CloseSquare,
    /// An opening parenthesis.
    OpenRound,
    /// A closing parenthesis.
    CloseRound,
    /// The two carets before a datatype.
    Carets,
}
