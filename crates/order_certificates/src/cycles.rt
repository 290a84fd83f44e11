// The certificate of inconsistent orders.
ghost use Rattle.std.specs.Prelude.{◌≡◌, ◌++◌, OnOk, IfOk};
ghost use Rattle.order_certificates.specs.Cycles as spec;
ghost use Rattle.order_certificates.specs.Sharing.{no_lets, chain_part, chain_lines};

use crate::sharing::{Lets, Part, append_part};
use chain_certificate::Chain;
use std::alloc::{AllocError, Global};

// The proof of a chain that is the only one; its lines are appended.
fn append_shared(alloc: Global, chain: &[u32], line: &mut Vec<u8>) -> Result<Part, AllocError>
    ensures part { IfOk result (λ p. p ≡ chain_part no_lets chain.now) }
    ensures line { OnOk result (line.new.items ≡ line.old.items ++ chain_lines no_lets chain.now) }
{
    let mut lets = Lets::new(alloc);
    lets.share(chain, line)
}

#[tactic(auto, unfolding(crate::specs::Cycles::cycle_end))]
fn append_cycle_end(proof: Part, line: &mut Vec<u8>) -> Result<(), AllocError>
    ensures { OnOk result (line.new.items ≡ line.old.items ++ spec.cycle_end proof) }
{
    line.extend_from_slice(b"cycle ")?;
    append_part(proof, line)?;
    line.extend_from_slice(b"\nend\n")
}

#[tactic(auto, unfolding(crate::specs::Cycles::cycle_text))]
fn append_cycle(alloc: Global, cycle: &[u32], line: &mut Vec<u8>) -> Result<(), AllocError>
    ensures { OnOk result (line.new.items ≡ line.old.items ++ spec.cycle_text cycle.now) }
{
    line.extend_from_slice(b"crmtime 2 orders\n")?;
    let proof = append_shared(alloc, cycle, line)?;
    append_cycle_end(proof, line)
}

/// The certificate of inconsistent orders, from their first cycle.
pub fn cycle_certificate(alloc: Global, cycle: &Chain) -> Result<Vec<u8>, AllocError>
    ensures { IfOk result (λ v. v.items ≡ spec.cycle_text cycle.now) }
{
    let mut line = Vec::new(alloc);
    append_cycle(alloc, cycle.as_slice(), &mut line)?;
    Ok(line)
}
