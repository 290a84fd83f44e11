// The terminals of the grammar.

/// How an IRI is written.
#[derive(Clone, Copy, PartialEq, Eq, Debug, Drop)]
pub enum NameForm {
    /// A reference in brackets.
    Reference,
    /// A prefix with its colon, and no local name.
    Namespace,
    /// A prefix and a local name.
    Local,
}

/// What a word behind an at sign may begin. Each may be a language tag.
#[derive(Clone, Copy, PartialEq, Eq, Debug, Drop)]
pub enum AtWord {
    /// The directive of a prefix.
    Prefix,
    /// The directive of a base.
    Base,
    /// Nothing.
    Other,
}

/// The terminals of Turtle, as far as its grammar tells them apart.
#[derive(Clone, Copy, PartialEq, Eq, Debug, Drop)]
pub enum Terminal {
    /// An IRI.
    Name(NameForm),
    /// The word `a` for the type of a node.
    A,
    /// A blank node with its label.
    Blank,
    /// A number or a truth value.
    Literal,
    /// A string in any of the four forms.
    Str,
    /// A word behind an at sign.
    At(AtWord),
    /// The word `PREFIX`.
    Prefix,
    /// The word `BASE`.
    Base,
    /// A full stop.
    Dot,
    /// A semicolon.
    Semicolon,
    /// A comma.
    Comma,
    /// An opening square bracket.
    OpenSquare,
    /// A closing square bracket.
    CloseSquare,
    /// An opening parenthesis.
    OpenRound,
    /// A closing parenthesis.
    CloseRound,
    /// The two carets before a datatype.
    Carets,
}
