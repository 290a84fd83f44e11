// What a character is to the machine.
ghost use Rattle.std.specs.Prelude.{◌≡◌, ◌<◌};
ghost use Rattle.text_patterns.specs.Patterns.{within};
ghost use Rattle.ntriples_tokens.specs.Steps.{is_letter, is_digit, begins_label, class_at, class_numbered, labels, inside};

/// What a character is to the machine.
#[derive(Clone, Copy, PartialEq, Eq)]
pub(crate) enum Class {
    Less,
    Greater,
    Quote,
    Apostrophe,
    Backslash,
    Underscore,
    Colon,
    Point,
    At,
    Caret,
    Dash,
    LineEnd,
    Odd,
    Zero,
    One,
    ToSeven,
    ToNine,
    HexLetter,
    HexEscape,
    HexD,
    EscapeLetter,
    SmallU,
    LargeU,
    Letter,
    Labels,
    Inside,
    Other,
}

impl Class {
    pub(crate) fn is_digit(self) -> bool
        ensures { result ≡ is_digit self }
    {
        matches!(
            self,
            Class::Zero | Class::One | Class::ToSeven | Class::ToNine
        )
    }

    pub(crate) fn is_letter(self) -> bool
        ensures { result ≡ is_letter self }
    {
        matches!(
            self,
            Class::HexLetter
                | Class::HexEscape
                | Class::HexD
                | Class::EscapeLetter
                | Class::SmallU
                | Class::LargeU
                | Class::Letter
        )
    }

    pub(crate) fn begins_label(self) -> bool
        ensures { result ≡ begins_label self }
    {
        self.is_digit()
            || self.is_letter()
            || matches!(self, Class::Underscore | Class::Colon | Class::Labels)
    }
}

/// The number of the class of each ASCII character.
const ASCII: [u8; 128] = [
    12, 12, 12, 12, 12, 12, 12, 12, 12, 12, 11, 12, 12, 11, 12, 12, 12, 12, 12, 12, 12, 12, 12, 12,
    12, 12, 12, 12, 12, 12, 12, 12, 12, 26, 2, 26, 26, 26, 26, 3, 26, 26, 26, 26, 26, 10, 7, 26,
    13, 14, 15, 15, 15, 15, 15, 15, 16, 16, 6, 26, 0, 26, 1, 26, 8, 17, 17, 17, 19, 17, 17, 23, 23,
    23, 23, 23, 23, 23, 23, 23, 23, 23, 23, 23, 23, 22, 23, 23, 23, 23, 23, 26, 4, 26, 9, 5, 12,
    17, 18, 17, 19, 17, 18, 23, 23, 23, 23, 23, 23, 23, 20, 23, 23, 23, 20, 23, 20, 21, 23, 23, 23,
    23, 23, 12, 12, 12, 26, 26,
];

fn numbered(n: u8) -> Class
    ensures { result ≡ class_numbered n }
{
    match n {
        0 => Class::Less,
        1 => Class::Greater,
        2 => Class::Quote,
        3 => Class::Apostrophe,
        4 => Class::Backslash,
        5 => Class::Underscore,
        6 => Class::Colon,
        7 => Class::Point,
        8 => Class::At,
        9 => Class::Caret,
        10 => Class::Dash,
        11 => Class::LineEnd,
        12 => Class::Odd,
        13 => Class::Zero,
        14 => Class::One,
        15 => Class::ToSeven,
        16 => Class::ToNine,
        17 => Class::HexLetter,
        18 => Class::HexEscape,
        19 => Class::HexD,
        20 => Class::EscapeLetter,
        21 => Class::SmallU,
        22 => Class::LargeU,
        23 => Class::Letter,
        24 => Class::Labels,
        25 => Class::Inside,
        _ => Class::Other,
    }
}

fn is_label(c: char) -> bool
    ensures { result ≡ within labels c }
{
    matches!(
        c,
        '\u{C0}'..='\u{D6}'
            | '\u{D8}'..='\u{F6}'
            | '\u{F8}'..='\u{2FF}'
            | '\u{370}'..='\u{37D}'
            | '\u{37F}'..='\u{1FFF}'
            | '\u{200C}'..='\u{200D}'
            | '\u{2070}'..='\u{218F}'
            | '\u{2C00}'..='\u{2FEF}'
            | '\u{3001}'..='\u{D7FF}'
            | '\u{F900}'..='\u{FDCF}'
            | '\u{FDF0}'..='\u{FFFD}'
            | '\u{10000}'..='\u{EFFFF}'
    )
}

fn is_inside(c: char) -> bool
    ensures { result ≡ within inside c }
{
    matches!(c, '\u{B7}' | '\u{300}'..='\u{36F}' | '\u{203F}'..='\u{2040}')
}

/// What an ASCII character is to the machine.
pub(crate) fn ascii_class(byte: u8) -> Class
    requires { byte < 128 }
    ensures { result ≡ class_at byte }
{
    numbered(ASCII[byte as usize])
}

/// What a character is to the machine.
pub(crate) fn class_of(c: char) -> Class
    ensures class { result ≡ class_at c }
    ensures range { c < 1114112 }
{
    let n = c as u32;
    if n < 128 {
        ascii_class(n as u8)
    } else if is_label(c) {
        Class::Labels
    } else if is_inside(c) {
        Class::Inside
    } else {
        Class::Other
    }
}
