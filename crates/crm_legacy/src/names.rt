// The IRIs of legacy properties and of what replaces them.
ghost use Rattle.std.specs.Prelude.{◌≡◌, option_map, string_bytes, IfOk};
ghost use Rattle.crm_properties.specs.Names.{behind, code_in, crm_space};
ghost use Rattle.crm_legacy.specs.Legacies as spec;

use crate::legacy::{Direction, Legacy, legacy_of_code};
use std::alloc::{AllocError, Global};

#[tactic(auto, unfolding(crm_properties::specs::Names::crm_space))]
fn crm_namespace() -> &'static str
    ensures { result.now ≡ crm_space }
{
    "http://www.cidoc-crm.org/cidoc-crm/"
}

// Up to the first `_`, or the whole.
fn code_of_name(name: &str) -> &str
    ensures { result.now ≡ code_in name.now }
{
    match name.split_once('_') {
        Some((code, _)) => code,
        None => name,
    }
}

fn name_in_crm(iri: &str) -> Option<&str>
    ensures { option_map (λ s. s.now) result ≡ behind crm_space iri.now }
{
    match iri.strip_prefix(crm_namespace()) {
        Some(name) => Some(name),
        None => None,
    }
}

/// The legacy property that the IRI names.
pub fn legacy_of(iri: &str) -> Option<Legacy>
    ensures { result ≡ spec.legacy_of iri.now }
{
    match name_in_crm(iri) {
        Some(name) => legacy_of_code(code_of_name(name)),
        None => None,
    }
}

fn inverse_mark(inverse: bool) -> &'static str
    ensures { result.now ≡ spec.inverse_mark inverse }
{
    if inverse { "i" } else { "" }
}

/// The IRI of a primitive in one of its directions, turned round where `turned` is set.
pub fn direction_iri(
    alloc: Global,
    direction: Direction,
    turned: bool,
) -> Result<String, AllocError>
    ensures { IfOk result (λ s. string_bytes s ≡ spec.direction_iri turned direction) }
{
    let mut iri = String::from_str(alloc, crm_namespace())?;
    iri.push_str(direction.primitive.code())?;
    iri.push_str(inverse_mark(direction.inverse != turned))?;
    Ok(iri)
}
