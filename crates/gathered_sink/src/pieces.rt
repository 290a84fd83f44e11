// Pieces of bytes that a sink takes.
ghost use Rattle.std.specs.Prelude.{◌≡◌, ◌+◌, ◌-◌, ◌≤◌, true, length, take, drop, OnOk, is_ok, vec_len, vec_capacity};
ghost use Rattle.std.specs.Io.KnownBytes.{Appends};
ghost use Rattle.crm_outside.specs.Causes.{HasCause};

use crm_outside::{Failed, Sink};

/// Writes until all is written or a write fails: how many bytes were written, and whether a write failed.
pub(crate) fn write_out<W: Sink>(bytes: &[u8], out: &mut W) -> (usize, Result<(), Failed>)
    ensures bound { result.0 ≤ length bytes.now }
    ensures all { OnOk result.1 (result.0 ≡ length bytes.now) }
    ensures bytes { Appends (W.written out.old) (W.written out.new) (take result.0 bytes.now) }
    ensures cause { HasCause (W.faults out.old) (W.faults out.new) result.1 }
    ensures never { length bytes.now ≤ W.sure out.old → is_ok result.1 ≡ true }
    ensures sure { W.sure out.old ≤ W.sure out.new + length bytes.now }
{
    let mut written = 0;
    while written < bytes.len() {
        match out.write(&bytes[written..]) {
            Ok(n) => written += n,
            Err(failed) => return (written, Err(failed)),
        }
    }
    (written, Ok(()))
}

/// Takes the first n bytes away.
pub(crate) fn remove_front(bytes: &mut Vec<u8>, n: usize)
    requires { n ≤ vec_len bytes.old }
    ensures items { bytes.new.items ≡ drop n bytes.old.items }
    ensures len { vec_len bytes.new ≡ vec_len bytes.old - n }
    ensures capacity { vec_capacity bytes.new ≡ vec_capacity bytes.old }
{
    let len = bytes.len();
    bytes.as_mut_slice().copy_within(n..len, 0);
    bytes.truncate(len - n);
}
