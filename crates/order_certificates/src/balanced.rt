// The texts of balanced trees.
use crate::names::append_name;
use std::alloc::AllocError;

/// Appends the balanced tree over leaves of a letter and a number: one leaf is itself; more are joined from the
/// first half, rounded down, and the rest.
pub fn append_balanced(letter: u8, leaves: &[u32], line: &mut Vec<u8>) -> Result<(), AllocError> {
    if leaves.len() <= 1 {
        for leaf in leaves {
            append_name(letter, *leaf as u64, line)?;
        }
        return Ok(());
    }
    let half = leaves.len() / 2;
    line.extend_from_slice(b"j(")?;
    append_balanced(letter, &leaves[..half], line)?;
    line.push(b',')?;
    append_balanced(letter, &leaves[half..], line)?;
    line.push(b')')?;
    Ok(())
}
