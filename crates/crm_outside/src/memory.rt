// A shelf and a sink in memory.
ghost use Rattle.std.specs.Prelude.{◌≡◌, Option, Some, None, ℕ, ◌+◌, ◌^◌, ◌<◌, ◌≤◌, Bool, true, false, List, [], ◌∷◌, ◌++◌, length, take, drop, position, min, IfOk, OnOk, OnErr, is_ok, is_some, slice_get, nat_eq};
ghost use Rattle.std.specs.Option.{option_and_then, option_map};
ghost use Rattle.std.specs.Str.{bytes_eq};
ghost use Rattle.std.specs.Io.{ReadsAtMost};
ghost use Rattle.std.specs.Io.KnownBytes.{ReadConsumes, WriteAppends};
ghost use Rattle.crm_outside.specs.Causes.{HasCause, counted};
ghost use Rattle.crm_outside.specs.Shelves.{IsOpened, TakesSome, held};
ghost use Rattle.crm_outside.specs.Memory.{find_file, fails_next, free, sure_bytes, is_opening, is_reading, is_taking, faults_after};

use crate::{Failed, FileEntry, FileList, Numbers, Shelf, Sink};
use std::alloc::{AllocError, Global};
use std::marker::Model;

/// A place in one of the files.
#[derive(Clone, Copy)]
struct Place {
    file: usize,
    at: usize,
}

/// Files in memory. The calls whose numbers are listed fail.
#[derive(Drop)]
pub struct MemShelf {
    files: FileList,
    fails: Numbers,
    calls: u64,
    cursor: Option<Place>,
    faults: u64,
}

impl Model for MemShelf {
    ghost use Rattle.crm_outside.specs.Memory.{ShelfState, left_at};

    ghost Value = { ShelfState };

    ghost view = { λ s. record { files = s.files; fails = s.fails; calls = s.calls; left = left_at s.files s.cursor; faults = s.faults } };
}

// The first file with this name.
fn find(files: &[FileEntry], name: &str) -> Option<usize>
    ensures { result ≡ position (λ f. bytes_eq f.name name.now) files.now }
{
    files.iter().position(|f| f.name.as_str() == name)
}

// Whether the call with this number fails.
fn is_failing(fails: &[u32], call: u64) -> bool
    ensures { result ≡ fails_next fails.now call }
{
    fails.iter().any(|n| call == u64::from(*n))
}

// Copies what stands at a place into the front of `buf`: how many bytes, and the place behind them.
fn take_front(bytes: &[u8], at: usize, buf: &mut [u8]) -> (usize, usize)
    ensures bound { result.0 ≤ length buf.new }
    ensures front { drop at bytes.now ≡ take result.0 buf.new ++ drop result.1 bytes.now }
    ensures end { result.0 ≡ 0 → 0 < length buf.new → drop result.1 bytes.now ≡ [] }
{
    let from = at.min(bytes.len());
    let rest = &bytes[from..];
    let count = rest.len().min(buf.len());
    buf[..count].copy_from_slice(&rest[..count]);
    (count, from + count)
}

impl MemShelf {
    /// A shelf of these files with none open. Its calls of `open` and `read` are counted together from 0;
    /// a call whose number is in `fails` fails. It is honest exactly where `fails` is empty.
    pub fn new(files: FileList, fails: Numbers) -> MemShelf
        ensures { result ≡ record { files = files; fails = fails; calls = 0; left = None; faults = 0 } }
    {
        MemShelf {
            files,
            fails,
            calls: 0,
            cursor: None,
            faults: 0,
        }
    }
}

impl Shelf for MemShelf {
    ghost files = { λ s. Some (find_file s.files) };

    ghost left = { λ s. s.left };

    ghost faults = { λ s. s.faults };

    ghost honest = { λ s. nat_eq (length s.fails) 0 };

    fn open(&mut self, name: &str) -> Result<(), Failed>
        ensures opened { OnOk result (IsOpened (⟦<MemShelf as Shelf>⟧.files self.old) name.now (⟦<MemShelf as Shelf>⟧.left self.new)) }
        ensures shut { OnErr result (⟦<MemShelf as Shelf>⟧.left self.new ≡ None) }
        ensures cause { HasCause (⟦<MemShelf as Shelf>⟧.faults self.old) (⟦<MemShelf as Shelf>⟧.faults self.new) result }
        ensures files { ⟦<MemShelf as Shelf>⟧.files self.new ≡ ⟦<MemShelf as Shelf>⟧.files self.old }
        ensures honest { ⟦<MemShelf as Shelf>⟧.honest self.new ≡ ⟦<MemShelf as Shelf>⟧.honest self.old }
        ensures held { ⟦<MemShelf as Shelf>⟧.honest self.old ≡ true → is_ok result ≡ is_some (held (⟦<MemShelf as Shelf>⟧.files self.old) name.now) }
        ensures told { ⟦<MemShelf as Shelf>⟧.honest self.old ≡ true → is_some (⟦<MemShelf as Shelf>⟧.files self.old) ≡ true }
        ensures exact { is_ok result ≡ is_opening self.old name.now }
        ensures calls { self.new.calls ≡ counted self.old.calls }
        ensures faults { self.new.faults ≡ faults_after self.old.faults result }
        ensures fails { self.new.fails ≡ self.old.fails }
        ensures entries { self.new.files ≡ self.old.files }
    {
        let failing = is_failing(self.fails.as_slice(), self.calls);
        self.calls = self.calls.saturating_add(1);
        self.cursor = None;
        if !failing {
            if let Some(file) = find(self.files.as_slice(), name) {
                self.cursor = Some(Place { file, at: 0 });
                return Ok(());
            }
        }
        self.faults = self.faults.saturating_add(1);
        Err(Failed)
    }

    fn read(&mut self, buf: &mut [u8]) -> Result<usize, Failed>
        ensures bound { ReadsAtMost result buf.new }
        ensures bytes { ReadConsumes (⟦<MemShelf as Shelf>⟧.left self.old) (⟦<MemShelf as Shelf>⟧.left self.new) result buf.new }
        ensures cause { HasCause (⟦<MemShelf as Shelf>⟧.faults self.old) (⟦<MemShelf as Shelf>⟧.faults self.new) result }
        ensures files { ⟦<MemShelf as Shelf>⟧.files self.new ≡ ⟦<MemShelf as Shelf>⟧.files self.old }
        ensures honest { ⟦<MemShelf as Shelf>⟧.honest self.new ≡ ⟦<MemShelf as Shelf>⟧.honest self.old }
        ensures open { ⟦<MemShelf as Shelf>⟧.honest self.old ≡ true → is_ok result ≡ is_some (⟦<MemShelf as Shelf>⟧.left self.old) }
        ensures exact { is_ok result ≡ is_reading self.old }
        ensures calls { self.new.calls ≡ counted self.old.calls }
        ensures faults { self.new.faults ≡ faults_after self.old.faults result }
        ensures fails { self.new.fails ≡ self.old.fails }
        ensures entries { self.new.files ≡ self.old.files }
    {
        let failing = is_failing(self.fails.as_slice(), self.calls);
        self.calls = self.calls.saturating_add(1);
        if !failing {
            if let Some(place) = self.cursor {
                if let Some(file) = self.files.get(place.file) {
                    let (count, at) = take_front(file.bytes.as_slice(), place.at, buf);
                    self.cursor = Some(Place {
                        file: place.file,
                        at,
                    });
                    return Ok(count);
                }
            }
        }
        self.faults = self.faults.saturating_add(1);
        Err(Failed)
    }
}

/// Bytes in memory, in room that is reserved when it is made.
#[derive(Drop)]
pub struct MemSink {
    bytes: Vec<u8>,
    room: usize,
    most: usize,
    fails: Numbers,
    calls: u64,
    faults: u64,
}

impl Model for MemSink {
    ghost use Rattle.std.specs.Prelude.{◌≤◌, ◌<◌, vec_len, vec_capacity};
    ghost use Rattle.crm_outside.specs.Memory.{SinkState};

    ghost Value = { SinkState };

    ghost view = { λ s. record { written = s.bytes.items; room = s.room; take = s.most; fails = s.fails; calls = s.calls; faults = s.faults } };

    ghost invariant = { λ s. (vec_len s.bytes ≤ s.room) × (s.room ≤ vec_capacity s.bytes) × (0 < s.most) };
}

impl MemSink {
    pub fn new(
        alloc: Global,
        room: usize,
        take: usize,
        fails: Numbers,
    ) -> Result<MemSink, AllocError>
        requires { 0 < take }
        ensures { IfOk result (λ s. s ≡ record { written = []; room = room; take = take; fails = fails; calls = 0; faults = 0 }) }
    {
        Ok(MemSink {
            bytes: Vec::with_capacity(alloc, room)?,
            room,
            most: take,
            fails,
            calls: 0,
            faults: 0,
        })
    }

    /// The bytes written.
    pub fn written(&self) -> &[u8]
        ensures { result.now ≡ self.now.written }
    {
        self.bytes.as_slice()
    }
}

impl Sink for MemSink {
    ghost written = { λ s. Some s.written };

    ghost faults = { λ s. s.faults };

    ghost sure = { sure_bytes };

    fn write(&mut self, bytes: &[u8]) -> Result<usize, Failed>
        ensures some { TakesSome result bytes.now }
        ensures bytes { WriteAppends (⟦<MemSink as Sink>⟧.written self.old) (⟦<MemSink as Sink>⟧.written self.new) result bytes.now }
        ensures cause { HasCause (⟦<MemSink as Sink>⟧.faults self.old) (⟦<MemSink as Sink>⟧.faults self.new) result }
        ensures never { 0 < ⟦<MemSink as Sink>⟧.sure self.old → is_ok result ≡ true }
        ensures sure { IfOk result (λ n. ⟦<MemSink as Sink>⟧.sure self.old ≤ ⟦<MemSink as Sink>⟧.sure self.new + n) }
        ensures sure_failed { OnErr result (⟦<MemSink as Sink>⟧.sure self.old ≤ ⟦<MemSink as Sink>⟧.sure self.new) }
        ensures exact { is_ok result ≡ is_taking self.old bytes.now }
        ensures count { IfOk result (λ n. n ≡ min (min (length bytes.now) self.old.take) (free self.old)) }
        ensures calls { self.new.calls ≡ counted self.old.calls }
        ensures faults { self.new.faults ≡ faults_after self.old.faults result }
        ensures fails { self.new.fails ≡ self.old.fails }
        ensures room { self.new.room ≡ self.old.room }
        ensures take { self.new.take ≡ self.old.take }
    {
        let failing = is_failing(self.fails.as_slice(), self.calls);
        self.calls = self.calls.saturating_add(1);
        let free = self.room - self.bytes.len();
        if failing || (free == 0 && !bytes.is_empty()) {
            self.faults = self.faults.saturating_add(1);
            return Err(Failed);
        }
        let count = bytes.len().min(self.most).min(free);
        if self.bytes.extend_from_slice(&bytes[..count]).is_err() {
            unreachable!()
        }
        Ok(count)
    }
}
