// The characters of names.
ghost use Rattle.std.specs.Prelude.{◌≡◌};
ghost use Rattle.text_patterns.specs.Patterns.{within};
ghost use Rattle.rdf_chars.specs.Sets.{pn_chars_base, pn_chars_u, pn_chars};

/// Whether the character is a letter of names: `PN_CHARS_BASE` of Turtle.
pub fn is_pn_chars_base(c: char) -> bool
    ensures { result ≡ within pn_chars_base c }
{
    matches!(
        c,
        'A'..='Z'
            | 'a'..='z'
            | '\u{C0}'..='\u{D6}'
            | '\u{D8}'..='\u{F6}'
            | '\u{F8}'..='\u{2FF}'
            | '\u{370}'..='\u{37D}'
            | '\u{37F}'..='\u{1FFF}'
            | '\u{200C}'..='\u{200D}'
            | '\u{2070}'..='\u{218F}'
            | '\u{2C00}'..='\u{2FEF}'
            | '\u{3001}'..='\u{D7FF}'
            | '\u{F900}'..='\u{FDCF}'
            | '\u{FDF0}'..='\u{FFFD}'
            | '\u{10000}'..='\u{EFFFF}'
    )
}

/// Whether the character is a letter of names or the underscore: `PN_CHARS_U` of Turtle.
pub fn is_pn_chars_u(c: char) -> bool
    ensures { result ≡ within pn_chars_u c }
{
    is_pn_chars_base(c) || c == '_'
}

/// Whether the character may stand inside a name: `PN_CHARS` of Turtle.
pub fn is_pn_chars(c: char) -> bool
    ensures { result ≡ within pn_chars c }
{
    is_pn_chars_u(c)
        || matches!(
            c,
            '-' | '0'..='9' | '\u{B7}' | '\u{300}'..='\u{36F}' | '\u{203F}'..='\u{2040}'
        )
}
