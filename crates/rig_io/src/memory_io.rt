//! Sources and sinks in memory, which can be told to fail.
ghost use Rattle.std.specs.Prelude.{◌≡◌, ◌≢◌, ◌<◌, ◌≤◌, ◌+◌, ◌-◌, ◌++◌, ◌||◌, nat_le, ◌↔◌, [], Some, IfOk, IsTrue, length, take, drop, min};
ghost use Rattle.rig_io.specs.Faults.{rose};
ghost use Rattle.rig_io.specs.Bytes.{Gave, GaveAll, Appended};
ghost use Rattle.rig_io.specs.Got.{OnBytes, LeavesRest};
ghost use Rattle.rig_io.specs.Put.{OnTook};
ghost use Rattle.rig_io.specs.Memory.{is_named, source_after, source_failed, sink_after, sink_failed};

use crate::memory::NoMemory;
use crate::sink::{Put, Sink};
use crate::source::{Got, Source};
use std::alloc::Global;
use std::marker::Model;

/// Copies `n` bytes from an index on to a buffer's prefix.
fn copy_piece(bytes: &[u8], at: usize, buf: &mut [u8], n: usize)
    requires from { at + n ≤ length bytes.now }
    requires to { n ≤ length buf.old }
    ensures prefix { take n buf.new ≡ take n (drop at bytes.now) }
    ensures rest { drop n buf.new ≡ drop n buf.old }
{
    buf[..n].copy_from_slice(&bytes[at..at + n]);
}

/// Bytes in memory, given in pieces of a chosen size, with reads that fail where they are told to.
///
/// The counts of its reads and faults stand still at `u64::MAX`.
#[derive(Debug, Drop)]
pub struct MemSource {
    bytes: Vec<u8>,
    at: usize,
    most: usize,
    fails: Vec<u64>,
    calls: u64,
    faults: u64,
}

impl Model for MemSource {
    ghost use Rattle.std.specs.Prelude.{◌<◌, ◌≤◌, drop, length};
    ghost use Rattle.rig_io.specs.Memory.{SourceState};

    ghost Value = { SourceState };

    ghost view = { λ s. record {
      left = drop s.at s.bytes.items;
      most = s.most;
      fails = s.fails.items;
      calls = s.calls;
      faults = s.faults;
    } };

    ghost invariant = { λ s. (s.at ≤ length s.bytes.items) × (0 < s.most) };
}

impl MemSource {
    /// A source of the bytes. A read gives at most `most` bytes, and the reads whose numbers,
    /// counted from 0, are in `fails` fail.
    pub fn new(bytes: Vec<u8>, most: usize, fails: Vec<u64>) -> MemSource
        requires { 0 < most }
        ensures { result ≡ record { left = bytes.items; most = most; fails = fails.items; calls = 0; faults = 0 } }
    {
        MemSource {
            bytes,
            at: 0,
            most,
            fails,
            calls: 0,
            faults: 0,
        }
    }

    /// The bytes that are still to come.
    pub fn left(&self) -> &[u8]
        ensures { result.now ≡ self.now.left }
    {
        &self.bytes[self.at..]
    }
}

impl Source for MemSource {
    ghost use Rattle.std.specs.Prelude.{Some};

    ghost left = { λ s. Some s.left };

    ghost faults = { λ s. s.faults };

    fn read(&mut self, buf: &mut [u8]) -> Got
        requires { 0 < length buf.old }
        ensures some { OnBytes result (λ n. (0 < n) × (n ≤ length buf.old)) }
        ensures gave { OnBytes result (λ n. Gave (Some self.old.left) (Some self.new.left) (take n buf.new)) }
        ensures rest { LeavesRest result buf.old buf.new }
        ensures end { result ≡ Got.End → GaveAll (Some self.old.left) (Some self.new.left) [] }
        ensures kept { result ≡ Got.Failed → Some self.new.left ≡ Some self.old.left }
        ensures failed { result ≡ Got.Failed → IsTrue (rose self.old.faults self.new.faults) }
        ensures no_fault { result ≢ Got.Failed → self.new.faults ≡ self.old.faults }
        ensures faults { self.old.faults ≤ self.new.faults }

        // Which of the three it is, and what each leaves.
        ensures fails { (result ≡ Got.Failed) ↔ IsTrue (is_named self.old.fails self.old.calls) }
        ensures nothing { result ≡ Got.End → self.old.left ≡ [] }
        ensures count { OnBytes result (λ n. n ≡ min (min self.old.most (length buf.old)) (length self.old.left)) }
        ensures after_bytes { OnBytes result (λ n. self.new ≡ source_after self.old (drop n self.old.left)) }
        ensures after_end { result ≡ Got.End → self.new ≡ source_after self.old [] }
        ensures after_fault { result ≡ Got.Failed → self.new ≡ source_failed self.old }
    {
        let call = self.calls;
        self.calls = call.saturating_add(1);
        if self.fails.contains(&call) {
            self.faults = self.faults.saturating_add(1);
            return Got::Failed;
        }
        let n = self.most.min(buf.len()).min(self.bytes.len() - self.at);
        if n == 0 {
            return Got::End;
        }
        copy_piece(&self.bytes, self.at, buf, n);
        self.at += n;
        Got::Bytes(n)
    }
}

/// Bytes in memory, given as many at a time as are asked for. No read fails.
#[derive(Debug, Drop)]
pub struct PlainSource {
    bytes: Vec<u8>,
    at: usize,
}

impl Model for PlainSource {
    ghost use Rattle.std.specs.Prelude.{ℕ, ◌≤◌, List, drop, length};

    ghost Value = { List ℕ };

    ghost view = { λ s. drop s.at s.bytes.items };

    ghost invariant = { λ s. s.at ≤ length s.bytes.items };
}

impl PlainSource {
    /// A source of the bytes.
    pub fn new(bytes: Vec<u8>) -> PlainSource
        ensures { result ≡ bytes.items }
    {
        PlainSource { bytes, at: 0 }
    }
}

impl Source for PlainSource {
    ghost use Rattle.std.specs.Prelude.{Some};

    ghost left = { λ s. Some s };

    ghost faults = { λ _. 0 };

    fn read(&mut self, buf: &mut [u8]) -> Got
        requires { 0 < length buf.old }
        ensures some { OnBytes result (λ n. (0 < n) × (n ≤ length buf.old)) }
        ensures gave { OnBytes result (λ n. Gave (Some self.old) (Some self.new) (take n buf.new)) }
        ensures rest { LeavesRest result buf.old buf.new }
        ensures end { result ≡ Got.End → GaveAll (Some self.old) (Some self.new) [] }
        ensures never { result ≢ Got.Failed }

        // A read gives as much as there is room for.
        ensures count { OnBytes result (λ n. n ≡ min (length buf.old) (length self.old)) }
    {
        let n = buf.len().min(self.bytes.len() - self.at);
        if n == 0 {
            return Got::End;
        }
        copy_piece(&self.bytes, self.at, buf, n);
        self.at += n;
        Got::Bytes(n)
    }
}

/// Takes every piece whole, and keeps nothing. It tells no content, and no write fails.
#[derive(Clone, Copy, Debug, Default, PartialEq, Eq)]
pub struct PlainSink;

impl PlainSink {
    /// A sink that keeps nothing.
    pub fn new() -> PlainSink {
        PlainSink
    }
}

impl Sink for PlainSink {
    ghost use Rattle.std.specs.Prelude.{None};

    ghost written = { λ _. None };

    ghost faults = { λ _. 0 };

    fn write(&mut self, piece: &[u8]) -> Put
        requires { 0 < length piece.now }
        ensures { result ≡ Put.Took (length piece.now) }
    {
        Put::Took(piece.len())
    }
}

/// A sink in memory with room for so many bytes, which takes pieces of a chosen size, with writes
/// that fail where they are told to, and where the room is full.
///
/// The counts of its writes and faults stand still at `u64::MAX`.
#[derive(Debug, Drop)]
pub struct MemSink {
    bytes: Vec<u8>,
    room: usize,
    most: usize,
    fails: Vec<u64>,
    calls: u64,
    faults: u64,
}

impl Model for MemSink {
    ghost use Rattle.std.specs.Prelude.{◌<◌, ◌≤◌};
    ghost use Rattle.std.specs.Vec.{vec_len, vec_capacity};
    ghost use Rattle.rig_io.specs.Memory.{SinkState};

    ghost Value = { SinkState };

    ghost view = { λ s. record {
      written = s.bytes.items;
      room = s.room;
      most = s.most;
      fails = s.fails.items;
      calls = s.calls;
      faults = s.faults;
    } };

    ghost invariant = { λ s. (vec_len s.bytes ≤ s.room) × (s.room ≤ vec_capacity s.bytes) × (0 < s.most) };
}

impl MemSink {
    /// An empty sink with room for `room` bytes, which are taken from memory here.
    ///
    /// A write takes at most `most` bytes, and the writes whose numbers, counted from 0, are in
    /// `fails` fail.
    pub fn new(
        alloc: Global,
        room: usize,
        most: usize,
        fails: Vec<u64>,
    ) -> Result<MemSink, NoMemory>
        requires { 0 < most }
        ensures { IfOk result (λ s. s ≡ record { written = []; room = room; most = most; fails = fails.items; calls = 0; faults = 0 }) }
    {
        let bytes = Vec::with_capacity(alloc, room)?;
        Ok(MemSink {
            bytes,
            room,
            most,
            fails,
            calls: 0,
            faults: 0,
        })
    }

    /// The bytes that were written.
    pub fn written(&self) -> &[u8]
        ensures { result.now ≡ self.now.written }
    {
        self.bytes.as_slice()
    }
}

impl Sink for MemSink {
    ghost use Rattle.std.specs.Prelude.{Some};

    ghost written = { λ s. Some s.written };

    ghost faults = { λ s. s.faults };

    fn write(&mut self, piece: &[u8]) -> Put
        requires { 0 < length piece.now }
        ensures some { OnTook result (λ n. (0 < n) × (n ≤ length piece.now)) }
        ensures took { OnTook result (λ n. Appended (Some self.old.written) (Some self.new.written) (take n piece.now)) }
        ensures kept { result ≡ Put.Failed → Some self.new.written ≡ Some self.old.written }
        ensures failed { result ≡ Put.Failed → IsTrue (rose self.old.faults self.new.faults) }
        ensures no_fault { result ≢ Put.Failed → self.new.faults ≡ self.old.faults }
        ensures faults { self.old.faults ≤ self.new.faults }

        // Which of the two it is, and what each leaves.
        ensures fails { (result ≡ Put.Failed) ↔
            IsTrue (is_named self.old.fails self.old.calls || nat_le self.old.room (length self.old.written)) }
        ensures count { OnTook result (λ n. n ≡ min (min self.old.most (length piece.now)) (self.old.room - length self.old.written)) }
        ensures after_bytes { OnTook result (λ n. self.new ≡ sink_after self.old (self.old.written ++ take n piece.now)) }
        ensures after_fault { result ≡ Put.Failed → self.new ≡ sink_failed self.old }
    {
        let call = self.calls;
        self.calls = call.saturating_add(1);
        let n = self.most.min(piece.len()).min(self.room - self.bytes.len());
        if n == 0 || self.fails.contains(&call) {
            self.faults = self.faults.saturating_add(1);
            return Put::Failed;
        }
        self.bytes.extend_from_slice(&piece[..n]).unwrap();
        Put::Took(n)
    }
}
