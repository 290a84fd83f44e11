// Removing dot segments from a path.
ghost use Rattle.std.specs.Prelude.{◌≡◌, ◌≤◌, ◌<◌, ◌++◌, drop, length, OnOk, IfOk, take, ℕ};
ghost use Rattle.iri_resolve.specs.Dots as spec;

use std::alloc::AllocError;

// The length of the text up to and with its last slash.
pub(crate) fn through_last_slash(text: &[u8]) -> usize
    ensures place { result ≡ spec.through_last_slash text.now }
    ensures within { result ≤ length text.now }
{
    let mut n = text.len();
    while n > 0 && text[n - 1] != b'/' {
        n -= 1;
    }
    n
}

// The length of the first segment, with a leading slash if it has one.
fn segment_length(input: &[u8]) -> usize
    requires { 0 < length input.now }
    ensures place { result ≡ spec.segment_length input.now }
    ensures within { result ≤ length input.now }
{
    let mut n = 1;
    while n < input.len() && input[n] != b'/' {
        n += 1;
    }
    n
}

// Drops the last segment of what stands from `start` on, with its slash.
fn drop_last(out: &mut Vec<u8>, start: usize)
    requires { start ≤ length out.old.items }
    ensures dropped { drop start out.new.items ≡ spec.without_last (drop start out.old.items) }
    ensures kept { take start out.new.items ≡ take start out.old.items }
    ensures within { start ≤ length out.new.items }
{
    let n = through_last_slash(&out.as_slice()[start..]);
    out.truncate(start + n.saturating_sub(1));
}

// One step: what is left of the input. The output is what stands in `out` from `start` on.
fn dot_step<'a>(input: &'a [u8], out: &mut Vec<u8>, start: usize) -> Result<&'a [u8], AllocError>
    requires input { 0 < length input.now }
    requires start { start ≤ length out.old.items }
    ensures rest { IfOk result (λ r. r.now ≡ (spec.dot_step input.now (drop start out.old.items)).0) }
    ensures output { OnOk result (drop start out.new.items ≡ (spec.dot_step input.now (drop start out.old.items)).1) }
    ensures kept { OnOk result (take start out.new.items ≡ take start out.old.items) }
    ensures within { OnOk result (start ≤ length out.new.items) }
{
    if input.starts_with(b"../") {
        return Ok(&input[3..]);
    }
    if input.starts_with(b"./") || input.starts_with(b"/./") {
        return Ok(&input[2..]);
    }
    if input == b"/.".as_slice() {
        return Ok(&input[..1]);
    }
    if input.starts_with(b"/../") {
        drop_last(out, start);
        return Ok(&input[3..]);
    }
    if input == b"/..".as_slice() {
        drop_last(out, start);
        return Ok(&input[..1]);
    }
    if input == b".".as_slice() || input == b"..".as_slice() {
        return Ok(&[]);
    }
    let n = segment_length(input);
    out.extend_from_slice(&input[..n])?;
    Ok(&input[n..])
}

/// Appends the path without its dot segments.
pub(crate) fn remove_dots(path: &[u8], out: &mut Vec<u8>) -> Result<(), AllocError>
    ensures { OnOk result (out.new.items ≡ out.old.items ++ spec.without_dots path.now) }
{
    let start = out.len();
    let mut rest = path;
    while !rest.is_empty() {
        rest = dot_step(rest, out, start)?;
    }
    Ok(())
}
