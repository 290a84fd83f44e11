// A proof object is a tree: its leaves and its nodes name the rules that they use.

/// A proof object: a leaf, or a rule over one or two proofs.
#[derive(Drop)]
pub enum Proof<L, R, J> {
    /// A fact that the theory gives.
    Leaf(L),
    /// A rule over the conclusion of one proof.
    One(R, Box<Proof<L, R, J>>),
    /// A rule over the conclusions of two proofs, in their order.
    Two(J, Box<Proof<L, R, J>>, Box<Proof<L, R, J>>),
}

/// A leaf of a proof that may cite what was proved earlier, by its number.
#[derive(Drop)]
pub enum SharedLeaf<L> {
    /// A leaf of the theory.
    Own(L),
    /// The kept fact of a number, counted from 0.
    Earlier(u32),
}
