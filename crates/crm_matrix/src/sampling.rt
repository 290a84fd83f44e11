// The records of a sample, as N-Triples.
ghost use Rattle.std.specs.Prelude.{◌≡◌, ◌++◌, ◌<◌, ◌^◌, ◌%◌, ◌==◌, [], if◌then◌else◌, OnOk, IfOk};
ghost use Rattle.std.specs.List.{flat_map};
ghost use Rattle.crm_matrix.specs.Samples as spec;

use crate::lines::append_number;
use std::alloc::{AllocError, Global};

fn append_context(i: u64, text: &mut Vec<u8>) -> Result<(), AllocError>
    ensures { OnOk result (text.new.items ≡ text.old.items ++ spec.context_text i) }
{
    text.extend_from_slice(b"<http://e/c")?;
    append_number(i, text)?;
    text.push(b'>')?;
    Ok(())
}

#[tactic(auto, unfolding(crate::specs::Samples::class_line))]
fn append_class(i: u64, text: &mut Vec<u8>) -> Result<(), AllocError>
    ensures { OnOk result (text.new.items ≡ text.old.items ++ spec.class_line i) }
{
    append_context(i, text)?;
    text.extend_from_slice(
        b" <http://www.w3.org/1999/02/22-rdf-syntax-ns#type> <http://www.cidoc-crm.org/extensions/crmarchaeo/A4_Stratigraphic_Genesis> .\n",
    )
}

#[tactic(auto, unfolding(crate::specs::Samples::before_line))]
fn append_before(i: u64, j: u64, text: &mut Vec<u8>) -> Result<(), AllocError>
    ensures { OnOk result (text.new.items ≡ text.old.items ++ spec.before_line i j) }
{
    append_context(i, text)?;
    text.extend_from_slice(b" <urn:crmtime:AP13-before> ")?;
    append_context(j, text)?;
    text.extend_from_slice(b" .\n")
}

fn append_before_within(n: u32, i: u32, d: u32, text: &mut Vec<u8>) -> Result<(), AllocError>
    ensures { OnOk result (text.new.items ≡ text.old.items ++ spec.before_text n i d) }
{
    let later = i as u64 + d as u64;
    if later < n as u64 {
        append_before(i as u64, later, text)?;
    }
    Ok(())
}

fn append_all_before(
    n: u32,
    i: u32,
    distances: &[u32],
    text: &mut Vec<u8>,
) -> Result<(), AllocError>
    ensures { OnOk result (text.new.items ≡ text.old.items ++ flat_map (spec.before_text n i) distances.now) }
{
    for d in distances {
        append_before_within(n, i, *d, text)?;
    }
    Ok(())
}

#[tactic(auto, unfolding(crate::specs::Samples::span_line))]
fn append_span(i: u64, text: &mut Vec<u8>) -> Result<(), AllocError>
    ensures { OnOk result (text.new.items ≡ text.old.items ++ spec.span_line i) }
{
    append_context(i, text)?;
    text.extend_from_slice(b" <http://www.cidoc-crm.org/cidoc-crm/P4_has_time-span> _:s")?;
    append_number(i, text)?;
    text.extend_from_slice(b" .\n")
}

#[tactic(auto, unfolding(crate::specs::Samples::span_text))]
fn append_property(i: u64, property: &str, text: &mut Vec<u8>) -> Result<(), AllocError>
    ensures { OnOk result (text.new.items ≡ text.old.items ++ spec.span_text i property.now) }
{
    text.extend_from_slice(b"_:s")?;
    append_number(i, text)?;
    text.extend_from_slice(b" <http://www.cidoc-crm.org/cidoc-crm/")?;
    text.extend_from_slice(property.as_bytes())?;
    text.extend_from_slice(b"> ")?;
    Ok(())
}

#[tactic(auto, unfolding(crate::specs::Samples::year_line))]
fn append_year(i: u64, property: &str, year: u64, text: &mut Vec<u8>) -> Result<(), AllocError>
    ensures { OnOk result (text.new.items ≡ text.old.items ++ spec.year_line i property.now year) }
{
    append_property(i, property, text)?;
    text.push(b'"')?;
    append_number(year, text)?;
    text.extend_from_slice(b"\"^^<http://www.w3.org/2001/XMLSchema#gYear> .\n")
}

fn append_dated(i: u32, text: &mut Vec<u8>) -> Result<(), AllocError>
    ensures { OnOk result (text.new.items ≡ text.old.items ++ spec.dated_text i) }
{
    let number = i as u64;
    append_span(number, text)?;
    append_year(number, "P82a_begin_of_the_begin", number + 1000, text)?;
    append_year(number, "P82b_end_of_the_end", number + 1030, text)?;
    Ok(())
}

fn append_date_where_due(i: u32, text: &mut Vec<u8>) -> Result<(), AllocError>
    ensures { OnOk result (text.new.items ≡ text.old.items ++ (if i % 40 == 0 then spec.dated_text i else [])) }
{
    if i % 40 == 0 {
        append_dated(i, text)?;
    }
    Ok(())
}

fn append_context_lines(n: u32, i: u32, text: &mut Vec<u8>) -> Result<(), AllocError>
    ensures { OnOk result (text.new.items ≡ text.old.items ++ spec.context_lines n i) }
{
    append_class(i as u64, text)?;
    append_all_before(n, i, &[4, 5, 6, 7], text)?;
    append_date_where_due(i, text)
}

/// The sample of n contexts: each of them is before those that stand four to seven behind it, and every fortieth is dated.
#[tactic(auto, unfolding(crate::specs::Samples::sample_file))]
pub fn sample_file(alloc: Global, n: u32) -> Result<Vec<u8>, AllocError>
    ensures { IfOk result (λ text. text.items ≡ spec.sample_file n) }
{
    let mut text = Vec::new(alloc);
    for i in 0..n {
        append_context_lines(n, i, &mut text)?;
    }
    Ok(text)
}
