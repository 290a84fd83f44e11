// N-Triples as a syntax.
use crate::Kind;
use crate::classes::{ascii_class, class_of};
use crate::states::State;
use token_scanner::Syntax;

/// N-Triples.
pub struct NTriples;

impl Syntax for NTriples {
    ghost use Rattle.ntriples_tokens.specs.Scanning.{scanner};
    ghost use Rattle.ntriples_tokens.specs.ScannerLaws.{right};

    type State = State;

    type Kind = Kind;

    ghost scanner = { scanner };

    fn has_lines() -> bool {
        true
    }

    fn start() -> State {
        State::Start
    }

    fn next(state: State, c: char) -> Option<State> {
        state.next(class_of(c))
    }

    fn accepts(state: State) -> Option<Kind> {
        state.accepts()
    }

    fn is_final(state: State) -> bool {
        state.is_final()
    }

    fn lengthens(state: State, byte: u8) -> bool {
        state.lengthens(ascii_class(byte))
    }

    fn drops(_kind: Kind, _n: usize, _chars: &[char]) -> bool {
        false
    }

    ghost is_scanner = { right };
}
