// A machine that reads all forms at once.
ghost use Rattle.std.specs.Prelude.{◌≡◌, ◌<◌, ◌≤◌, length, IfErr};
ghost use Rattle.time_primitive.specs.Forms.{form_in};
ghost use Rattle.time_primitive.specs.Machine.{class_at, is_digit, on_digit, on_zone, on_zone_or_hyphen, next_in_zone, next_in_time, on_year, behind_year, next, accepts, leads_to, is_wanted, is_taken};

use crate::form::{Datatype, Form};

/// What a byte is to the machine.
#[derive(Clone, Copy, PartialEq, Eq, Debug)]
pub enum Class {
    Zero,
    Digit,
    Hyphen,
    Plus,
    Colon,
    Point,
    T,
    Z,
    Other,
}

/// What is read of a zone.
#[derive(Clone, Copy, PartialEq, Eq, Debug)]
pub enum ZoneState {
    Sign,
    Hour1,
    Hour2,
    Colon,
    Minute1,
    End,
}

/// What is read of a time.
#[derive(Clone, Copy, PartialEq, Eq, Debug)]
pub enum TimeState {
    Start,
    Hour1,
    Hour2,
    Colon1,
    Minute1,
    Minute2,
    Colon2,
    Second1,
    Second2,
    Point,
    Fraction,
}

/// What is read of a text: a part with a number is read up to its digit of that number.
#[derive(Clone, Copy, PartialEq, Eq, Debug)]
pub enum State {
    Start,
    Sign,
    /// A year that begins with another digit than zero; `Year4` is read of one with four digits or more.
    Year1,
    Year2,
    Year3,
    Year4,
    /// A year that begins with zero.
    Zero1,
    Zero2,
    Zero3,
    Zero4,
    /// Behind it a month begins, or the offset of a year.
    Hyphen1,
    Month1,
    Month2,
    /// Behind it a day begins, or the offset of a month.
    Hyphen2,
    Day1,
    Day2,
    Clock(TimeState),
    Zone(Form, ZoneState),
}

/// The class of a byte.
fn class_of(byte: u8) -> Class
    ensures class { result ≡ class_at byte }
    ensures range { byte < 1114112 }
{
    match byte {
        b'0' => Class::Zero,
        b'1'..=b'9' => Class::Digit,
        b'-' => Class::Hyphen,
        b'+' => Class::Plus,
        b':' => Class::Colon,
        b'.' => Class::Point,
        b'T' => Class::T,
        b'Z' => Class::Z,
        _ => Class::Other,
    }
}

impl Class {
    fn is_digit(self) -> bool
        ensures { result ≡ is_digit self }
    {
        matches!(self, Class::Zero | Class::Digit)
    }
}

fn digit_to(state: State, class: Class) -> Option<State>
    ensures { result ≡ on_digit state class }
{
    if class.is_digit() { Some(state) } else { None }
}

fn zone_of(form: Form, class: Class) -> Option<State>
    ensures { result ≡ on_zone form class }
{
    match class {
        Class::Plus => Some(State::Zone(form, ZoneState::Sign)),
        Class::Z => Some(State::Zone(form, ZoneState::End)),
        _ => None,
    }
}

fn zone_or_hyphen_of(form: Form, class: Class) -> Option<State>
    ensures { result ≡ on_zone_or_hyphen form class }
{
    match class {
        Class::Hyphen => Some(State::Zone(form, ZoneState::Sign)),
        _ => zone_of(form, class),
    }
}

fn year_of(class: Class) -> Option<State>
    ensures { result ≡ on_year class }
{
    match class {
        Class::Zero => Some(State::Zero1),
        Class::Digit => Some(State::Year1),
        _ => None,
    }
}

fn after_year(class: Class) -> Option<State>
    ensures { result ≡ behind_year class }
{
    match class {
        Class::Hyphen => Some(State::Hyphen1),
        _ => zone_of(Form::GYear, class),
    }
}

impl TimeState {
    fn next(self, class: Class) -> Option<State>
        ensures { result ≡ next_in_time self class }
    {
        match (self, class) {
            (TimeState::Start, _) => digit_to(State::Clock(TimeState::Hour1), class),
            (TimeState::Hour1, _) => digit_to(State::Clock(TimeState::Hour2), class),
            (TimeState::Hour2, Class::Colon) => Some(State::Clock(TimeState::Colon1)),
            (TimeState::Colon1, _) => digit_to(State::Clock(TimeState::Minute1), class),
            (TimeState::Minute1, _) => digit_to(State::Clock(TimeState::Minute2), class),
            (TimeState::Minute2, Class::Colon) => Some(State::Clock(TimeState::Colon2)),
            (TimeState::Colon2, _) => digit_to(State::Clock(TimeState::Second1), class),
            (TimeState::Second1, _) => digit_to(State::Clock(TimeState::Second2), class),
            (TimeState::Second2, Class::Point) => Some(State::Clock(TimeState::Point)),
            (TimeState::Point, _) => digit_to(State::Clock(TimeState::Fraction), class),
            (TimeState::Fraction, Class::Zero | Class::Digit) => Some(State::Clock(
                TimeState::Fraction,
            )),
            (TimeState::Second2 | TimeState::Fraction, _) => zone_or_hyphen_of(
                Form::DateTime,
                class,
            ),
            (TimeState::Hour2 | TimeState::Minute2, _) => None,
        }
    }
}

impl ZoneState {
    fn next(self, form: Form, class: Class) -> Option<State>
        ensures { result ≡ next_in_zone form self class }
    {
        match self {
            ZoneState::Sign => digit_to(State::Zone(form, ZoneState::Hour1), class),
            ZoneState::Hour1 => digit_to(State::Zone(form, ZoneState::Hour2), class),
            ZoneState::Hour2 if class == Class::Colon => Some(State::Zone(form, ZoneState::Colon)),
            ZoneState::Colon => digit_to(State::Zone(form, ZoneState::Minute1), class),
            ZoneState::Minute1 => digit_to(State::Zone(form, ZoneState::End), class),
            _ => None,
        }
    }
}

impl State {
    /// The state behind one more byte of this class, if some text of a form goes on so.
    fn next(self, class: Class) -> Option<State>
        ensures { result ≡ next self class }
    {
        match (self, class) {
            (State::Start, Class::Hyphen) => Some(State::Sign),
            (State::Start | State::Sign, _) => year_of(class),
            (State::Year1, _) => digit_to(State::Year2, class),
            (State::Year2, _) => digit_to(State::Year3, class),
            (State::Year3, _) => digit_to(State::Year4, class),
            (State::Year4, Class::Zero | Class::Digit) => Some(State::Year4),
            (State::Zero1, _) => digit_to(State::Zero2, class),
            (State::Zero2, _) => digit_to(State::Zero3, class),
            (State::Zero3, _) => digit_to(State::Zero4, class),
            (State::Year4 | State::Zero4, _) => after_year(class),
            (State::Hyphen1, _) => digit_to(State::Month1, class),
            (State::Month1, _) => digit_to(State::Month2, class),
            (State::Month2, Class::Hyphen) => Some(State::Hyphen2),
            (State::Month2, Class::Colon) => Some(State::Zone(Form::GYear, ZoneState::Colon)),
            (State::Month2, _) => zone_of(Form::GYearMonth, class),
            (State::Hyphen2, _) => digit_to(State::Day1, class),
            (State::Day1, _) => digit_to(State::Day2, class),
            (State::Day2, Class::T) => Some(State::Clock(TimeState::Start)),
            (State::Day2, Class::Colon) => Some(State::Zone(Form::GYearMonth, ZoneState::Colon)),
            (State::Day2, _) => zone_or_hyphen_of(Form::Date, class),
            (State::Clock(time), _) => time.next(class),
            (State::Zone(form, zone), _) => zone.next(form, class),
        }
    }

    /// The form of the texts that lead to the state.
    fn form(self) -> Option<Form>
        ensures { result ≡ accepts self }
    {
        match self {
            State::Year4 | State::Zero4 => Some(Form::GYear),
            State::Month2 => Some(Form::GYearMonth),
            State::Day2 => Some(Form::Date),
            State::Clock(TimeState::Second2 | TimeState::Fraction) => Some(Form::DateTime),
            State::Zone(form, ZoneState::End) => Some(form),
            _ => None,
        }
    }

    /// Whether some text of the form leads through the state.
    fn leads_to(self, form: Form) -> bool
        ensures { result ≡ leads_to self form }
    {
        match self {
            State::Zone(of, _) => of == form,
            State::Clock(_) => form == Form::DateTime,
            State::Hyphen2 | State::Day1 | State::Day2 => form != Form::GYear,
            _ => true,
        }
    }
}

impl Datatype {
    fn wants(self, state: State) -> bool
        ensures { result ≡ is_wanted self state }
    {
        match self {
            Datatype::Typed(form) => state.leads_to(form),
            Datatype::Text => true,
        }
    }

    fn takes(self, form: Form) -> bool
        ensures { result ≡ is_taken self form }
    {
        match self {
            Datatype::Typed(only) => only == form,
            Datatype::Text => true,
        }
    }
}

/// The form of the text among those of the datatype; else how many bytes of it begin some text of one.
pub fn read_form(datatype: Datatype, text: &[u8]) -> Result<Form, usize>
    ensures value { result ≡ form_in datatype text.now }
    ensures in_text { IfErr result (λ at. at ≤ length text.now) }
{
    let mut state = State::Start;
    for (i, byte) in text.iter().enumerate() {
        let Some(next) = state.next(class_of(*byte)) else {
            return Err(i);
        };
        if !datatype.wants(next) {
            return Err(i);
        }
        state = next;
    }
    let Some(form) = state.form() else {
        return Err(text.len());
    };
    if datatype.takes(form) {
        Ok(form)
    } else {
        Err(text.len())
    }
}
