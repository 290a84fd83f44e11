// The lines of relations.
ghost use Rattle.std.specs.Prelude.{◌≡◌, ◌++◌, OnOk, flat_map};
ghost use Rattle.allen_reports.specs.Relations as spec;

use crm_allen::{Allen, AllenSet, all_relations};
use itoa::Buffer;
use std::alloc::AllocError;

fn append_name(r: Allen, line: &mut Vec<u8>) -> Result<(), AllocError>
    ensures { OnOk result (line.new.items ≡ line.old.items ++ spec.name_text r) }
{
    line.push(b' ')?;
    line.extend_from_slice(r.name().as_bytes())
}

fn append_if(set: &AllenSet, r: Allen, line: &mut Vec<u8>) -> Result<(), AllocError>
    ensures { OnOk result (line.new.items ≡ line.old.items ++ spec.text_if set.now spec.name_text r) }
{
    if set.has(r) {
        return append_name(r, line);
    }
    Ok(())
}

// The names of the relations in their sequence, a space before each.
fn append_names(set: &AllenSet, line: &mut Vec<u8>) -> Result<(), AllocError>
    ensures { OnOk result (line.new.items ≡ line.old.items ++ flat_map spec.name_text set.now) }
{
    set.conditions();
    for r in all_relations() {
        append_if(set, r, line)?;
    }
    Ok(())
}

fn append_extent(k: u32, line: &mut Vec<u8>) -> Result<(), AllocError>
    ensures { OnOk result (line.new.items ≡ line.old.items ++ spec.extent_name k) }
{
    line.push(b'x')?;
    line.extend_from_slice(Buffer::new().format(k).as_bytes())
}

/// Appends the line of two extents: their numbers and the names of the relations.
#[tactic(auto, unfolding(crate::specs::Relations::relations_line))]
pub fn append_relations(
    a: u32,
    b: u32,
    set: &AllenSet,
    line: &mut Vec<u8>,
) -> Result<(), AllocError>
    ensures { OnOk result (line.new.items ≡ line.old.items ++ spec.relations_line a b set.now) }
{
    append_extent(a, line)?;
    line.push(b' ')?;
    append_extent(b, line)?;
    append_names(set, line)?;
    line.push(b'\n')?;
    Ok(())
}

/// Appends the line of a relation.
#[tactic(auto, unfolding(crate::specs::Relations::relation_line))]
pub fn append_relation(r: Allen, line: &mut Vec<u8>) -> Result<(), AllocError>
    ensures { OnOk result (line.new.items ≡ line.old.items ++ spec.relation_line r) }
{
    line.extend_from_slice(b"relation")?;
    append_name(r, line)?;
    line.push(b'\n')?;
    Ok(())
}
