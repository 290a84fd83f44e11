// The `place` lines of a certificate of orders.
ghost use Rattle.std.specs.Prelude.{◌≡◌, ◌++◌, OnOk};
ghost use Rattle.std.specs.List.{flat_map};
ghost use Rattle.order_certificates.specs.OrderCertificates as spec;

use crate::names::append_name;
use itoa::Buffer;
use order_core::{Placing, Position};
use std::alloc::AllocError;

fn append_position(position: Position, line: &mut Vec<u8>) -> Result<(), AllocError>
    ensures { OnOk result (line.new.items ≡ line.old.items ++ spec.placed position) }
{
    line.push(b' ')?;
    line.extend_from_slice(Buffer::new().format(position.instant).as_bytes())?;
    append_name(b'/', position.rank as u64, line)
}

fn append_positions(positions: &[Position], line: &mut Vec<u8>) -> Result<(), AllocError>
    ensures { OnOk result (line.new.items ≡ line.old.items ++ flat_map spec.placed positions.now) }
{
    for position in positions {
        append_position(*position, line)?;
    }
    Ok(())
}

/// Appends the line of a placing.
#[tactic(auto, unfolding(crate::specs::OrderCertificates::place_line))]
pub(crate) fn append_place(placing: &Placing, line: &mut Vec<u8>) -> Result<(), AllocError>
    ensures { OnOk result (line.new.items ≡ line.old.items ++ spec.place_line placing.now) }
{
    line.extend_from_slice(b"place")?;
    append_positions(placing.as_slice(), line)?;
    line.push(b'\n')?;
    Ok(())
}
