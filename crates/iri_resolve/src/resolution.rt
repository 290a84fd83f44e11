// Resolving a reference against a base.
ghost use Rattle.std.specs.Prelude.{◌≡◌, ◌≤◌, ◌++◌, [], length, true, false, IfOk, OnOk, IfSome, IsErrOf, IsNone, IsTrue};
ghost use Rattle.iri_resolve.specs.Splitting.{IsWithinIfThere, AreWithin, IsWithin, has_scheme, split};
ghost use Rattle.iri_resolve.specs.Resolution as spec;

use crate::dots::{remove_dots, through_last_slash};
use crate::splitting::{Parts, Span, has_scheme, split_bytes};
use crm_outside::Text;
use std::alloc::{AllocError, Global};

/// Why a reference was not resolved.
#[derive(Clone, Copy, PartialEq, Eq, Debug, Drop)]
pub enum ResolveFault {
    /// The reference has no scheme, and there is no base.
    NoBase,
    /// There was no memory for the result.
    Memory,
}

// A part with its marks, if it is there.
fn append(
    before: &[u8],
    text: &[u8],
    span: Option<Span>,
    after: &[u8],
    out: &mut Vec<u8>,
) -> Result<(), AllocError>
    requires { IsWithinIfThere text.now span }
    ensures { OnOk result (out.new.items ≡ out.old.items ++ spec.marked before.now (spec.piece_of text.now span) after.now) }
{
    if let Some(span) = span {
        out.extend_from_slice(before)?;
        out.extend_from_slice(&text[span.from..span.to])?;
        out.extend_from_slice(after)?;
    }
    Ok(())
}

// The reference's path behind the base's path up to its last slash, or behind a slash.
fn merged(alloc: Global, base: &[u8], parts: Parts, path: &[u8]) -> Result<Vec<u8>, AllocError>
    requires { IsWithin base.now parts.path }
    ensures { IfOk result (λ v. v.items ≡ spec.merged (spec.pieces_by base.now parts) path.now) }
{
    let mut out = Vec::new(alloc);
    let base_path = &base[parts.path.from..parts.path.to];
    if parts.authority.is_some() && base_path.is_empty() {
        out.push(b'/')?;
    } else {
        out.extend_from_slice(&base_path[..through_last_slash(base_path)])?;
    }
    out.extend_from_slice(path)?;
    Ok(out)
}

fn append_path(
    alloc: Global,
    base: &[u8],
    parts: Parts,
    reference: &[u8],
    own: Parts,
    out: &mut Vec<u8>,
) -> Result<(), AllocError>
    requires base { AreWithin base.now parts }
    requires reference { AreWithin reference.now own }
    ensures { OnOk result (out.new.items ≡ out.old.items ++ spec.target_path (spec.pieces_by base.now parts) (spec.pieces_by reference.now own)) }
{
    let path = &reference[own.path.from..own.path.to];
    if own.authority.is_some() {
        return remove_dots(path, out);
    }
    if path.is_empty() {
        out.extend_from_slice(&base[parts.path.from..parts.path.to])?;
        return Ok(());
    }
    if path[0] == b'/' {
        return remove_dots(path, out);
    }
    let merged = merged(alloc, base, parts, path)?;
    remove_dots(merged.as_slice(), out)
}

fn append_query(
    base: &[u8],
    parts: Parts,
    reference: &[u8],
    own: Parts,
    out: &mut Vec<u8>,
) -> Result<(), AllocError>
    requires base { AreWithin base.now parts }
    requires reference { AreWithin reference.now own }
    ensures { OnOk result (out.new.items ≡ out.old.items ++ spec.marked spec.question (spec.target_query (spec.pieces_by base.now parts) (spec.pieces_by reference.now own)) []) }
{
    if own.authority.is_none() && own.query.is_none() && own.path.from == own.path.to {
        append(b"?", base, parts.query, b"", out)
    } else {
        append(b"?", reference, own.query, b"", out)
    }
}

fn append_authority(
    base: &[u8],
    parts: Parts,
    reference: &[u8],
    own: Parts,
    out: &mut Vec<u8>,
) -> Result<(), AllocError>
    requires base { AreWithin base.now parts }
    requires reference { AreWithin reference.now own }
    ensures { OnOk result (out.new.items ≡ out.old.items ++ spec.marked spec.slashes (spec.or_else (spec.pieces_by reference.now own).authority (spec.pieces_by base.now parts).authority) []) }
{
    if own.authority.is_some() {
        append(b"//", reference, own.authority, b"", out)
    } else {
        append(b"//", base, parts.authority, b"", out)
    }
}

// The reference, which has no scheme, against the base.
fn resolved(alloc: Global, base: &[u8], reference: &[u8]) -> Result<Vec<u8>, AllocError>
    ensures { IfOk result (λ v. v.items ≡ spec.resolved base.now reference.now) }
{
    let parts = split_bytes(base);
    let own = split_bytes(reference);
    let mut out = Vec::new(alloc);
    append(b"", base, parts.scheme, b":", &mut out)?;
    append_authority(base, parts, reference, own, &mut out)?;
    append_path(alloc, base, parts, reference, own, &mut out)?;
    append_query(base, parts, reference, own, &mut out)?;
    append(b"#", reference, own.fragment, b"", &mut out)?;
    Ok(out)
}

/// The reference as it stands where it has a scheme, else resolved against the base as RFC 3986, section 5.2, has it.
///
/// The base has a scheme. `NoBase` comes where neither has one; `Memory` where memory was wanting.
pub fn resolve(alloc: Global, base: Option<&str>, reference: &str) -> Result<Text, ResolveFault>
    requires { IfSome base (λ b. IsTrue (has_scheme b.now)) }
    ensures unchanged { has_scheme reference.now ≡ true → IfOk result (λ t. t ≡ reference.now) }
    ensures resolved { has_scheme reference.now ≡ false → IfSome base.entry (λ b. IfOk result (λ t. t ≡ spec.resolved b.now reference.now)) }
    ensures no_base { IsErrOf result ResolveFault.NoBase → (has_scheme reference.now ≡ false) × IsNone base.entry }
    ensures base { has_scheme reference.now ≡ false → IsNone base.entry → IsErrOf result ResolveFault.NoBase }
{
    if has_scheme(reference) {
        return owned(alloc, reference);
    }
    let Some(base) = base else {
        return Err(ResolveFault::NoBase);
    };
    let Ok(bytes) = resolved(alloc, base.as_bytes(), reference.as_bytes()) else {
        return Err(ResolveFault::Memory);
    };
    owned(alloc, str::from_utf8(bytes.as_slice()).unwrap())
}

fn owned(alloc: Global, text: &str) -> Result<Text, ResolveFault>
    ensures ok { IfOk result (λ t. t ≡ text.now) }
    ensures memory { ¬ IsErrOf result ResolveFault.NoBase }
{
    match Text::from_str(alloc, text) {
        Ok(text) => Ok(text),
        Err(_) => Err(ResolveFault::Memory),
    }
}
