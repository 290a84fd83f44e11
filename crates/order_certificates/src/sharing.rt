// The `let` lines of a certificate of orders: what chains share is proved once.
ghost use Rattle.std.specs.Prelude.{◌≡◌, ◌+◌, ◌++◌, OnOk, IfOk};
ghost use Rattle.order_certificates.specs.Sharing as spec;

use crate::names::append_name;
use indexmap::IndexSet;
use std::alloc::{AllocError, Global};
use std::marker::Model;

/// A proof of the front of a chain: an order, or what a `let` line keeps.
#[derive(Clone, Copy, PartialEq, Eq, Hash, Debug)]
pub(crate) enum Part {
    Order(u32),
    Kept(u64),
}

/// What a `let` line joins: a front of a chain and the order behind it.
#[derive(Clone, Copy, PartialEq, Eq, Hash, Debug)]
pub(crate) struct Step {
    pub front: Part,
    pub order: u32,
}

/// The `let` lines of the chains from the two boundaries of one period, and how many lines stand before these.
///
/// Chains from other boundaries begin with other orders, so they share no front with these.
#[derive(Drop)]
pub(crate) struct Lets {
    before: u64,
    steps: IndexSet<Step>,
}

impl Model for Lets {
    ghost use Rattle.order_certificates.specs.Sharing.{LetSteps};

    ghost Value = { LetSteps };

    ghost view = { λ l. record { before = l.before; steps = l.steps.keys } };
}

/// Appends `oN` or `lN`.
pub(crate) fn append_part(part: Part, line: &mut Vec<u8>) -> Result<(), AllocError>
    ensures { OnOk result (line.new.items ≡ line.old.items ++ spec.part_text part) }
{
    match part {
        Part::Order(n) => append_name(b'o', n as u64, line),
        Part::Kept(n) => append_name(b'l', n, line),
    }
}

#[tactic(auto, unfolding(crate::specs::Sharing::let_line))]
fn append_let(step: Step, line: &mut Vec<u8>) -> Result<(), AllocError>
    ensures { OnOk result (line.new.items ≡ line.old.items ++ spec.let_line step) }
{
    line.extend_from_slice(b"let j(")?;
    append_part(step.front, line)?;
    line.extend_from_slice(b",")?;
    append_name(b'o', step.order as u64, line)?;
    line.extend_from_slice(b")\n")
}

// What the line at a place behind so many others keeps. There are no more lines than can be numbered.
fn numbered(before: u64, index: usize) -> Result<Part, AllocError>
    ensures { IfOk result (λ p. p ≡ Part.Kept (before + index)) }
{
    match before.checked_add(index as u64) {
        Some(number) => Ok(Part::Kept(number)),
        None => Err(AllocError),
    }
}

impl Lets {
    /// No lines.
    pub fn new(alloc: Global) -> Lets
        ensures { result ≡ spec.no_lets }
    {
        Lets {
            before: 0,
            steps: IndexSet::new(alloc),
        }
    }

    /// Begins the lines of the next period, behind all so far.
    pub fn turn(&mut self) -> Result<(), AllocError>
        ensures { OnOk result (self.new ≡ spec.turned self.old) }
    {
        let Some(before) = self.before.checked_add(self.steps.len() as u64) else {
            return Err(AllocError);
        };
        self.before = before;
        self.steps.clear();
        Ok(())
    }

    /// What the line of a step keeps; the line is appended where there is none.
    pub fn keep(&mut self, step: Step, line: &mut Vec<u8>) -> Result<Part, AllocError>
        ensures part { IfOk result (λ p. p ≡ spec.kept_part self.old step) }
        ensures lets { OnOk result (self.new ≡ spec.with_step self.old step) }
        ensures line { OnOk result (line.new.items ≡ line.old.items ++ spec.new_line self.old step) }
    {
        let (index, added) = self.steps.insert_full(step)?;
        let part = numbered(self.before, index)?;
        if added {
            append_let(step, line)?;
        }
        Ok(part)
    }

    fn share_behind(
        &mut self,
        front: Part,
        orders: &[u32],
        line: &mut Vec<u8>,
    ) -> Result<Part, AllocError>
        ensures part { IfOk result (λ p. p ≡ (spec.shared_behind self.old front orders.now).proof) }
        ensures lets { OnOk result (self.new ≡ (spec.shared_behind self.old front orders.now).lets) }
        ensures line { OnOk result (line.new.items ≡ line.old.items ++ (spec.shared_behind self.old front orders.now).text) }
    {
        let mut part = front;
        for order in orders {
            let step = Step {
                front: part,
                order: *order,
            };
            part = self.keep(step, line)?;
        }
        Ok(part)
    }

    /// Appends the `let` lines that a chain still lacks, and answers the proof of the chain.
    pub fn share(&mut self, chain: &[u32], line: &mut Vec<u8>) -> Result<Part, AllocError>
        ensures part { IfOk result (λ p. p ≡ spec.chain_part self.old chain.now) }
        ensures lets { OnOk result (self.new ≡ spec.chain_lets self.old chain.now) }
        ensures line { OnOk result (line.new.items ≡ line.old.items ++ spec.chain_lines self.old chain.now) }
    {
        match chain {
            [] => Ok(Part::Order(0)),
            [first, behind @ ..] => self.share_behind(Part::Order(*first), behind, line),
        }
    }
}
