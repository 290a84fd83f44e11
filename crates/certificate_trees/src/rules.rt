// The two rules that all theories of certificates have.

/// The rule that makes a fact weaker.
#[derive(Clone, Copy, PartialEq, Eq, Debug)]
pub struct Weaken;

/// The rule that joins two facts, where the first ends at what the second begins with.
#[derive(Clone, Copy, PartialEq, Eq, Debug)]
pub struct Join;
