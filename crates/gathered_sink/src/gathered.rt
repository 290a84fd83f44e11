// Gathering.
ghost use Rattle.std.specs.Prelude.{◌≡◌, ◌+◌, ◌-◌, ◌≤◌, ◌<◌, [], true, length, OnOk, OnErr, IfOk, is_ok};
ghost use Rattle.std.specs.Io.KnownBytes.{Keeps, append_known};
ghost use Rattle.crm_outside.specs.Causes.{HasCause};

use crate::pieces::{remove_front, write_out};
use crm_outside::{Failed, Sink};
use std::alloc::{AllocError, Global};
use std::marker::Model;

const ROOM: usize = 65_536;

/// A sink that holds up to 65,536 bytes before it writes them to the sink behind it.
///
/// What was written to it is what the sink behind it has, and then what it still holds. `finish` hands that on too;
/// a value that is dropped loses it.
#[derive(Drop)]
pub struct Gathered<W> {
    out: W,
    held: Vec<u8>,
}

impl<W> Model for Gathered<W> {
    ghost use Rattle.std.specs.Prelude.{List, ℕ, ◌≤◌, ◌^◌, vec_len, vec_capacity};

    ghost Value = { W × List ℕ };

    ghost view = { λ g. (g.out, g.held.items) };

    ghost invariant = { λ g. (vec_len g.held ≤ 65536) × (65536 ≤ vec_capacity g.held) };
}

impl<W: Sink> Gathered<W> {
    /// A sink that holds nothing, over `out`. Its room is reserved here; where there is no memory, `out` is dropped.
    pub fn new(alloc: Global, out: W) -> Result<Gathered<W>, AllocError>
    where
        W: Drop,
        ensures { IfOk result (λ g. g ≡ (out, [])) }
    {
        Ok(Gathered {
            out,
            held: Vec::with_capacity(alloc, ROOM)?,
        })
    }

    /// Writes what is held. What a fault leaves unwritten stays held.
    pub fn flush(&mut self) -> Result<(), Failed>
        ensures bytes { Keeps (append_known (W.written self.old.0) self.old.1) (append_known (W.written self.new.0) self.new.1) }
        ensures empty { OnOk result (self.new.1 ≡ []) }
        ensures cause { HasCause (W.faults self.old.0) (W.faults self.new.0) result }
        ensures never { length self.old.1 ≤ W.sure self.old.0 → is_ok result ≡ true }
        ensures sure { W.sure self.old.0 ≤ W.sure self.new.0 + length self.old.1 }
    {
        let (written, result) = write_out(self.held.as_slice(), &mut self.out);
        remove_front(&mut self.held, written);
        result
    }

    /// Writes what is held, and gives the sink behind. What a fault leaves unwritten is lost.
    pub fn finish(mut self) -> (W, Result<(), Failed>)
        ensures bytes { OnOk result.1 (Keeps (append_known (W.written self.0) self.1) (W.written result.0)) }
        ensures cause { HasCause (W.faults self.0) (W.faults result.0) result.1 }
        ensures never { length self.1 ≤ W.sure self.0 → is_ok result.1 ≡ true }
    {
        let result = self.flush();
        let Gathered { out, held: _ } = self;
        (out, result)
    }
}

impl<W: Sink> Sink for Gathered<W> {
    ghost use Rattle.std.specs.Prelude.{◌-◌, length};
    ghost use Rattle.std.specs.Io.KnownBytes.{append_known};

    ghost written = { λ g. append_known (W.written g.0) g.1 };

    ghost faults = { λ g. W.faults g.0 };

    ghost sure = { λ g. W.sure g.0 - length g.1 };

    fn write(&mut self, bytes: &[u8]) -> Result<usize, Failed> {
        if bytes.len() > ROOM - self.held.len() {
            self.flush()?;
        }
        if bytes.len() > ROOM {
            return self.out.write(bytes);
        }
        if self.held.extend_from_slice(bytes).is_err() {
            unreachable!()
        }
        Ok(bytes.len())
    }
}
