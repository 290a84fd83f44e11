// The lines of tangles and suspects.
ghost use Rattle.std.specs.Prelude.{◌≡◌, ◌++◌, OnOk};
ghost use Rattle.std.specs.Fmt.{decimal};
ghost use Rattle.conflict_reports.specs.Texts.{tangle_line, suspect_line};

use itoa::Buffer;
use order_conflicts::{Suspect, Tangle};
use order_texts::append_chain;
use std::alloc::AllocError;

fn append_number(n: u64, line: &mut Vec<u8>) -> Result<(), AllocError>
    ensures { OnOk result (line.new.items ≡ line.old.items ++ decimal n) }
{
    line.extend_from_slice(Buffer::new().format(n).as_bytes())
}

/// Appends the line of a tangle with its number, and that of its cycle.
#[tactic(auto, unfolding(crate::specs::Texts::tangle_line))]
pub(crate) fn append_tangle(k: usize, tangle: &Tangle, line: &mut Vec<u8>) -> Result<(), AllocError>
    ensures { OnOk result (line.new.items ≡ line.old.items ++ tangle_line k tangle.now) }
{
    line.extend_from_slice(b"tangle ")?;
    append_number(k as u64, line)?;
    append_chain(tangle.orders.as_slice(), line)?;
    line.extend_from_slice(b"\ncycle")?;
    append_chain(tangle.cycle.as_slice(), line)?;
    line.push(b'\n')?;
    Ok(())
}

/// Appends the line of a suspect.
#[tactic(auto, unfolding(crate::specs::Texts::suspect_line))]
pub(crate) fn append_suspect(suspect: &Suspect, line: &mut Vec<u8>) -> Result<(), AllocError>
    ensures { OnOk result (line.new.items ≡ line.old.items ++ suspect_line suspect.now) }
{
    line.extend_from_slice(b"suspect t")?;
    append_number(suspect.triple as u64, line)?;
    append_chain(suspect.orders.as_slice(), line)?;
    line.push(b'\n')?;
    Ok(())
}
