// What a syntax gives.
ghost use Rattle.std.specs.Prelude.{◌≡◌, ◌<◌, true, Some, None};
ghost use Rattle.token_scanner.specs.Scanners.{Scanner};
ghost use Rattle.token_scanner.specs.Rules.{IsScanner};

/// A syntax: the machine that reads its tokens, and which of what it reads are none.
pub trait Syntax {
    /// The states of the machine.
    type State: Copy;

    /// The kinds of token.
    type Kind: Copy;

    /// What it is.
    ghost scanner: { Scanner Self.State Self.Kind };

    /// Whether a line's end is a token; else it is white space.
    fn has_lines() -> bool
        ensures { result ≡ scanner.lines };

    /// The state before the first character.
    fn start() -> Self::State
        ensures { result ≡ scanner.machine.start };

    /// The state behind one more character, if some token goes on so.
    fn next(state: Self::State, c: char) -> Option<Self::State>
        ensures { result ≡ scanner.machine.next state c };

    /// The kind of token that ends in the state, if one does.
    fn accepts(state: Self::State) -> Option<Self::Kind>
        ensures { result ≡ scanner.machine.accepts state };

    /// Whether no token goes on behind the state.
    fn is_final(state: Self::State) -> bool
        ensures { result ≡ scanner.machine.is_final state };

    /// Whether a byte of ASCII only lengthens the open token: the state stays, and no token ends.
    fn lengthens(state: Self::State, byte: u8) -> bool
        requires { byte < 128 }
        ensures stays { result ≡ true → scanner.machine.next state byte ≡ Some state }
        ensures none { result ≡ true → scanner.machine.accepts state ≡ None };

    /// Whether what is read, of so many characters, is no token at the front of these.
    fn drops(kind: Self::Kind, n: usize, chars: &[char]) -> bool
        ensures { result ≡ scanner.drops kind n chars.now };

    /// What is read is the standard's tokens.
    ghost is_scanner: { IsScanner scanner };
}
