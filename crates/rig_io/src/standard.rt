//! The program's standard input and output, as a source and a sink. No contract tells what the system
//! gives and takes: only what its answers mean, and which are counted.
ghost use Rattle.std.specs.Prelude.{◌≡◌, ◌≤◌, IfOk, OnErr, length, drop};
ghost use Rattle.rig_io.specs.Got.{got_of};
ghost use Rattle.rig_io.specs.Put.{put_of};

use crate::sink::{Put, Sink};
use crate::source::{Got, Source};
use std::io::{self, Read};

/// The most bytes of one read.
const PIECE: usize = 8_192;

/// What the system's answer to a read means: 0 bytes are the end.
fn got_of(answer: io::Result<usize>) -> Got
    ensures { result ≡ got_of answer }
{
    match answer {
        Ok(0) => Got::End,
        Ok(n) => Got::Bytes(n),
        Err(_) => Got::Failed,
    }
}

/// What the system's answer to a write means: a write that took nothing has failed.
fn put_of(answer: io::Result<usize>) -> Put
    ensures { result ≡ put_of answer }
{
    match answer {
        Ok(0) | Err(_) => Put::Failed,
        Ok(n) => Put::Took(n),
    }
}

/// Reads into the buffer's prefix and changes nothing else. A `Read` may write behind the bytes that it gave, so they
/// come by a piece.
fn read_prefix<R: Read>(reader: &mut R, buf: &mut [u8]) -> io::Result<usize>
    ensures within { IfOk result (λ n. n ≤ length buf.old) }
    ensures rest { IfOk result (λ n. drop n buf.new ≡ drop n buf.old) }
    ensures err { OnErr result (buf.new ≡ buf.old) }
{
    let mut piece = [0; PIECE];
    let room = buf.len().min(PIECE);
    let n = reader.read(&mut piece[..room])?;
    buf[..n].copy_from_slice(&piece[..n]);
    Ok(n)
}

/// Standard input. It tells no content, and counts the reads that the system failed, from 0.
#[derive(Drop)]
pub struct StdSource<R: Input> {
    reader: R::Reader,
    faults: u64,
}

impl<R: Input> StdSource<R> {
    /// The standard input of the runtime.
    pub fn new(rt: &R) -> StdSource<R>
        ensures { ⟦<StdSource<R> as Source>⟧.faults result ≡ 0 }
    {
        StdSource {
            reader: rt.reader(),
            faults: 0,
        }
    }
}

impl<R: Input> Source for StdSource<R> {
    ghost use Rattle.std.specs.Prelude.{None};

    ghost left = { λ _. None };

    ghost faults = { λ s. s.faults };

    fn read(&mut self, buf: &mut [u8]) -> Got {
        let got = got_of(read_prefix(&mut self.reader, buf));
        if let Got::Failed = got {
            self.faults = self.faults.saturating_add(1);
        }
        got
    }
}

/// Standard output. It tells no content, and counts the writes that the system failed, from 0.
#[derive(Drop)]
pub struct StdSink<'a, P: Print> {
    rt: &'a P,
    faults: u64,
}

impl<'a, P: Print> StdSink<'a, P> {
    /// The standard output of the runtime.
    pub fn new(rt: &'a P) -> StdSink<'a, P>
        ensures { ⟦<StdSink<'a, P> as Sink>⟧.faults result ≡ 0 }
    {
        StdSink { rt, faults: 0 }
    }
}

impl<'a, P: Print> Sink for StdSink<'a, P> {
    ghost use Rattle.std.specs.Prelude.{None};

    ghost written = { λ _. None };

    ghost faults = { λ s. s.faults };

    fn write(&mut self, piece: &[u8]) -> Put {
        let put = put_of(self.rt.write_some(piece));
        if let Put::Failed = put {
            self.faults = self.faults.saturating_add(1);
        }
        put
    }
}
