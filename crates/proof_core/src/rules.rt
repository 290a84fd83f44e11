// What a theory gives: three rules, and a meaning of its facts that the rules keep.
ghost use Rattle.std.specs.Prelude.{◌≡◌};
ghost use Rattle.proof_core.specs.Rules.{Rules, KeepsTruth};

/// A theory: what its leaves give, the rules that lead from facts to facts, and which facts are true. Its law
/// is that leaves give only true facts, and that the rules lead from true facts to true facts.
pub trait Theory: Drop {
    /// What a proof concludes.
    type Fact: Copy;

    type Leaf: Drop;

    type Rule1: Drop;

    type Rule2: Copy;

    /// What the leaves and the two kinds of rules give, or nothing.
    ghost rules: { Self → Rules Self.Leaf Self.Rule1 Self.Rule2 Self.Fact };

    /// Which facts are true.
    ghost IsTrueIn: { Self → Self.Fact → Type 0 };

    /// The fact of a leaf; None where it has none.
    fn leaf(&self, l: &Self::Leaf) -> Option<Self::Fact>
        ensures { result ≡ (rules self.now).leaf l.now };

    /// What a rule makes of a fact; None where it does not fit.
    fn one(&self, r: &Self::Rule1, f: Self::Fact) -> Option<Self::Fact>
        ensures { result ≡ (rules self.now).one r.now f };

    /// What a rule makes of two facts, in their order; None where it does not fit.
    fn two(&self, r: &Self::Rule2, f: Self::Fact, g: Self::Fact) -> Option<Self::Fact>
        ensures { result ≡ (rules self.now).two r.now f g };

    /// The law of the theory.
    ghost keeps_truth: { (t : Self) → KeepsTruth (rules t) (IsTrueIn t) };
}
