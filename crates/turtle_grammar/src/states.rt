// What may follow what was read.
ghost use Rattle.std.specs.Prelude.{◌≡◌};
ghost use Rattle.turtle_grammar.specs.Machine as spec;

use crate::terminals::{AtWord, NameForm, Terminal};

/// A bracket that stands open.
#[derive(Clone, Copy, PartialEq, Eq, Debug, Drop)]
pub enum Frame {
    /// A blank node or its property list as the subject of a statement.
    SubjectSquare,
    /// A collection as the subject of a statement.
    SubjectRound,
    /// A blank node or its property list as an object or an item.
    ObjectSquare,
    /// A collection as an object or an item.
    ObjectRound,
}

/// What is awaited.
#[derive(Clone, Copy, PartialEq, Eq, Debug, Drop)]
pub enum State {
    /// A statement, or the end of the document.
    Statement,
    /// The prefix of `@prefix`.
    AtPrefixName,
    /// The IRI of `@prefix`.
    AtPrefixIri,
    /// The IRI of `@base`.
    AtBaseIri,
    /// The full stop of a directive.
    DirectiveDot,
    /// The prefix of `PREFIX`.
    PrefixName,
    /// The IRI of `PREFIX`.
    PrefixIri,
    /// The IRI of `BASE`.
    BaseIri,
    /// A predicate, behind a subject.
    Verb,
    /// A predicate or the full stop, behind a property list as subject.
    VerbOrDot,
    /// A predicate or the closing bracket, behind an opening one.
    VerbOrClose,
    /// A predicate or what goes on behind one, behind a semicolon.
    VerbOrMore,
    /// An object.
    Object,
    /// What goes on behind an object; in a collection an item or its end.
    AfterObject,
    /// The tag or the datatype of a string, or what goes on behind an object.
    AfterText,
    /// The IRI of a datatype.
    Datatype,
}

/// What a terminal does.
#[derive(Clone, Copy, PartialEq, Eq, Debug, Drop)]
pub enum Step {
    /// It leads to the state.
    Stay(State),
    /// It opens a bracket, and leads to the state.
    Push(Frame, State),
    /// It closes the innermost bracket, and leads to the state.
    Pop(State),
    /// It may not stand here.
    Refused,
}

// A statement begins.
fn statement(terminal: Terminal) -> Step
    ensures { result ≡ spec.statement_step terminal }
{
    match terminal {
        Terminal::Name(_) | Terminal::Blank => Step::Stay(State::Verb),
        Terminal::OpenSquare => Step::Push(Frame::SubjectSquare, State::VerbOrClose),
        Terminal::OpenRound => Step::Push(Frame::SubjectRound, State::AfterObject),
        Terminal::At(AtWord::Prefix) => Step::Stay(State::AtPrefixName),
        Terminal::At(AtWord::Base) => Step::Stay(State::AtBaseIri),
        Terminal::Prefix => Step::Stay(State::PrefixName),
        Terminal::Base => Step::Stay(State::BaseIri),
        _ => Step::Refused,
    }
}

// The state behind a name in one of its forms alone.
fn form(terminal: Terminal, wanted: NameForm, then: State) -> Step
    ensures { result ≡ spec.form_step terminal wanted then }
{
    match (terminal, wanted) {
        (Terminal::Name(NameForm::Reference), NameForm::Reference)
        | (Terminal::Name(NameForm::Namespace), NameForm::Namespace)
        | (Terminal::Name(NameForm::Local), NameForm::Local) => Step::Stay(then),
        _ => Step::Refused,
    }
}

// A predicate.
fn verb(terminal: Terminal) -> Step
    ensures { result ≡ spec.verb_step terminal }
{
    match terminal {
        Terminal::Name(_) | Terminal::A => Step::Stay(State::Object),
        _ => Step::Refused,
    }
}

// An object or an item begins.
fn object(terminal: Terminal) -> Step
    ensures { result ≡ spec.object_step terminal }
{
    match terminal {
        Terminal::Name(_) | Terminal::Blank | Terminal::Literal => Step::Stay(State::AfterObject),
        Terminal::Str => Step::Stay(State::AfterText),
        Terminal::OpenSquare => Step::Push(Frame::ObjectSquare, State::VerbOrClose),
        Terminal::OpenRound => Step::Push(Frame::ObjectRound, State::AfterObject),
        _ => Step::Refused,
    }
}

// Behind an object, by the innermost bracket.
fn after(top: Option<Frame>, terminal: Terminal) -> Step
    ensures { result ≡ spec.after_step top terminal }
{
    match (top, terminal) {
        (Some(Frame::SubjectRound), Terminal::CloseRound) => Step::Pop(State::Verb),
        (Some(Frame::ObjectRound), Terminal::CloseRound) => Step::Pop(State::AfterObject),
        (Some(Frame::SubjectRound | Frame::ObjectRound), _) => object(terminal),
        (_, Terminal::Comma) => Step::Stay(State::Object),
        (_, Terminal::Semicolon) => Step::Stay(State::VerbOrMore),
        (None, Terminal::Dot) => Step::Stay(State::Statement),
        (Some(Frame::SubjectSquare), Terminal::CloseSquare) => Step::Pop(State::VerbOrDot),
        (Some(Frame::ObjectSquare), Terminal::CloseSquare) => Step::Pop(State::AfterObject),
        _ => Step::Refused,
    }
}

// Behind an opening square bracket.
fn opened(top: Option<Frame>, terminal: Terminal) -> Step
    ensures { result ≡ spec.opened_step top terminal }
{
    match (top, terminal) {
        (Some(Frame::SubjectSquare), Terminal::CloseSquare) => Step::Pop(State::Verb),
        (Some(Frame::ObjectSquare), Terminal::CloseSquare) => Step::Pop(State::AfterObject),
        _ => verb(terminal),
    }
}

// Behind a semicolon.
fn more(top: Option<Frame>, terminal: Terminal) -> Step
    ensures { result ≡ spec.more_step top terminal }
{
    match terminal {
        Terminal::Name(_) | Terminal::A => Step::Stay(State::Object),
        Terminal::Comma => Step::Refused,
        _ => after(top, terminal),
    }
}

// Behind a string.
fn after_text(top: Option<Frame>, terminal: Terminal) -> Step
    ensures { result ≡ spec.text_step top terminal }
{
    match terminal {
        Terminal::At(_) => Step::Stay(State::AfterObject),
        Terminal::Carets => Step::Stay(State::Datatype),
        _ => after(top, terminal),
    }
}

impl State {
    /// What a terminal does, where `top` is the innermost bracket that stands open.
    pub fn next(self, top: Option<Frame>, terminal: Terminal) -> Step
        ensures { result ≡ spec.next self top terminal }
    {
        match (self, terminal) {
            (State::Statement, _) => statement(terminal),
            (State::AtPrefixName, _) => form(terminal, NameForm::Namespace, State::AtPrefixIri),
            (State::PrefixName, _) => form(terminal, NameForm::Namespace, State::PrefixIri),
            (State::AtPrefixIri | State::AtBaseIri, _) => {
                form(terminal, NameForm::Reference, State::DirectiveDot)
            }
            (State::PrefixIri | State::BaseIri, _) => {
                form(terminal, NameForm::Reference, State::Statement)
            }
            (State::DirectiveDot, Terminal::Dot) => Step::Stay(State::Statement),
            (State::Verb, _) => verb(terminal),
            (State::VerbOrDot, Terminal::Dot) => Step::Stay(State::Statement),
            (State::VerbOrDot, _) => verb(terminal),
            (State::VerbOrClose, _) => opened(top, terminal),
            (State::VerbOrMore, _) => more(top, terminal),
            (State::Object, _) => object(terminal),
            (State::AfterObject, _) => after(top, terminal),
            (State::AfterText, _) => after_text(top, terminal),
            (State::Datatype, Terminal::Name(_)) => Step::Stay(State::AfterObject),
            (State::DirectiveDot | State::Datatype, _) => Step::Refused,
        }
    }
}
