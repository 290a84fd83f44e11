// What is read of a token, and what one more character does.
ghost use Rattle.std.specs.Prelude.{◌≡◌, true, Some, None};
ghost use Rattle.ntriples_tokens.specs.Steps.{next, accepts, is_final, next_escape, next_text_escape, if_label};

use crate::Kind;
use crate::classes::Class;

/// How much of a numeric escape is read.
#[derive(Clone, Copy)]
pub enum Escape {
    Slash,
    First,
    Four,
    Three,
    Two,
    Last,
    Surrogate,
    Long,
    LongOne,
    LongTwo,
    LongThree,
    LongTop,
}

/// How an escape goes on.
#[derive(Clone, Copy)]
pub(crate) enum Escaped {
    Within(Escape),
    Done,
    Bad,
}

/// What is read of a token.
#[derive(Clone, Copy)]
pub enum State {
    Start,
    Iri,
    IriEscape(Escape),
    IriEnd,
    BlankStart,
    BlankColon,
    BlankLabel,
    BlankPoint,
    InText,
    TextEscape(Escape),
    TextEnd,
    AtStart,
    AtLetters,
    AtDash,
    AtMore,
    CaretOne,
    CaretTwo,
    Stop,
    Lines,
}

impl Escape {
    pub(crate) fn next(self, class: Class) -> Escaped
        ensures { result ≡ next_escape self class }
    {
        let hex = class.is_digit()
            || matches!(class, Class::HexLetter | Class::HexEscape | Class::HexD);
        match (self, class) {
            (Escape::Slash, Class::SmallU) => Escaped::Within(Escape::First),
            (Escape::Slash, Class::LargeU) => Escaped::Within(Escape::Long),
            (Escape::First, Class::HexD) => Escaped::Within(Escape::Surrogate),
            (Escape::First | Escape::Four, _) if hex => Escaped::Within(Escape::Three),
            (Escape::Three, _) if hex => Escaped::Within(Escape::Two),
            (Escape::Two, _) if hex => Escaped::Within(Escape::Last),
            (Escape::Last, _) if hex => Escaped::Done,
            (Escape::Surrogate, Class::Zero | Class::One | Class::ToSeven) => Escaped::Within(
                Escape::Two,
            ),
            (Escape::Long, Class::Zero) => Escaped::Within(Escape::LongOne),
            (Escape::LongOne, Class::Zero) => Escaped::Within(Escape::LongTwo),
            (Escape::LongTwo, Class::Zero) => Escaped::Within(Escape::LongThree),
            (Escape::LongTwo, Class::One) => Escaped::Within(Escape::LongTop),
            (Escape::LongThree, Class::Zero) => Escaped::Within(Escape::First),
            (Escape::LongThree, _) if hex => Escaped::Within(Escape::Four),
            (Escape::LongTop, Class::Zero) => Escaped::Within(Escape::Four),
            _ => Escaped::Bad,
        }
    }
}

fn escape_in_text(escape: Escape, class: Class) -> Escaped
    ensures { result ≡ next_text_escape escape class }
{
    match (escape, class) {
        (
            Escape::Slash,
            Class::EscapeLetter
            | Class::HexEscape
            | Class::Quote
            | Class::Apostrophe
            | Class::Backslash,
        ) => Escaped::Done,
        _ => escape.next(class),
    }
}

fn in_label(class: Class) -> Option<State>
    ensures { result ≡ if_label class }
{
    match class {
        Class::Point => Some(State::BlankPoint),
        Class::Dash | Class::Inside => Some(State::BlankLabel),
        _ if class.begins_label() => Some(State::BlankLabel),
        _ => None,
    }
}

impl State {
    /// Whether a character of this class only lengthens the IRI or the string that is open: the state stays.
    pub(crate) fn lengthens(self, class: Class) -> bool
        ensures stays { result ≡ true → next self class ≡ Some self }
        ensures none { result ≡ true → accepts self ≡ None }
    {
        match self {
            State::Iri => !matches!(
                class,
                Class::Less
                    | Class::Greater
                    | Class::Quote
                    | Class::Backslash
                    | Class::Caret
                    | Class::LineEnd
                    | Class::Odd
            ),
            State::InText => !matches!(class, Class::Quote | Class::Backslash | Class::LineEnd),
            _ => false,
        }
    }

    /// The state behind one more character of this class, if some token goes on so.
    pub(crate) fn next(self, class: Class) -> Option<State>
        ensures { result ≡ next self class }
    {
        match self {
            State::Start => match class {
                Class::Less => Some(State::Iri),
                Class::Quote => Some(State::InText),
                Class::Underscore => Some(State::BlankStart),
                Class::At => Some(State::AtStart),
                Class::Caret => Some(State::CaretOne),
                Class::Point => Some(State::Stop),
                Class::LineEnd => Some(State::Lines),
                _ => None,
            },
            State::Iri => match class {
                Class::Greater => Some(State::IriEnd),
                Class::Backslash => Some(State::IriEscape(Escape::Slash)),
                Class::Less | Class::Quote | Class::Caret | Class::LineEnd | Class::Odd => None,
                _ => Some(State::Iri),
            },
            State::IriEscape(escape) => match escape.next(class) {
                Escaped::Within(escape) => Some(State::IriEscape(escape)),
                Escaped::Done => Some(State::Iri),
                Escaped::Bad => None,
            },
            State::InText => match class {
                Class::Quote => Some(State::TextEnd),
                Class::Backslash => Some(State::TextEscape(Escape::Slash)),
                Class::LineEnd => None,
                _ => Some(State::InText),
            },
            State::TextEscape(escape) => match escape_in_text(escape, class) {
                Escaped::Within(escape) => Some(State::TextEscape(escape)),
                Escaped::Done => Some(State::InText),
                Escaped::Bad => None,
            },
            State::BlankStart if class == Class::Colon => Some(State::BlankColon),
            State::BlankColon if class.begins_label() => Some(State::BlankLabel),
            State::BlankLabel | State::BlankPoint => in_label(class),
            State::AtStart if class.is_letter() => Some(State::AtLetters),
            State::AtLetters | State::AtMore if class == Class::Dash => Some(State::AtDash),
            State::AtLetters if class.is_letter() => Some(State::AtLetters),
            State::AtDash | State::AtMore if class.is_letter() || class.is_digit() => Some(
                State::AtMore,
            ),
            State::CaretOne if class == Class::Caret => Some(State::CaretTwo),
            State::Lines if class == Class::LineEnd => Some(State::Lines),
            _ => None,
        }
    }
}

impl State {
    pub(crate) fn accepts(self) -> Option<Kind>
        ensures { result ≡ accepts self }
    {
        match self {
            State::IriEnd => Some(Kind::IriRef),
            State::BlankLabel => Some(Kind::Blank),
            State::TextEnd => Some(Kind::Str),
            State::AtLetters | State::AtMore => Some(Kind::AtWord),
            State::CaretTwo => Some(Kind::Carets),
            State::Stop => Some(Kind::Dot),
            State::Lines => Some(Kind::Eol),
            _ => None,
        }
    }

    /// Whether no token goes on behind the state.
    pub(crate) fn is_final(self) -> bool
        ensures { result ≡ is_final self }
    {
        matches!(
            self,
            State::IriEnd | State::TextEnd | State::CaretTwo | State::Stop
        )
    }
}
