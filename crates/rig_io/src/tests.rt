//! Worked examples of whole inputs, whole outputs, lists and counts, and what the messages say.
ghost use Rattle.std.specs.Prelude.{◌<◌};

use crate::{
    Count, List, MemSink, MemSource, NoMemory, PlainSink, PlainSource, Put, ReadStop, Share, Sink,
    Source, StdSink, StdSource, Tally, WriteFault, read_all, write_all,
};
use std::alloc::{Allocator, Global};
use std::fmt::Display;
use std::io::{self, BufRead, Lines, Read};
use std::marker::Model;
use std::sync::Arc;
use std::test::Fail;

/// Reads a source of these bytes whole.
fn read_bytes(
    alloc: Global,
    bytes: &[u8],
    most: usize,
    fails: &[u64],
    limit: usize,
) -> Result<Vec<u8>, ReadStop>
    requires { 0 < most }
{
    let bytes = Vec::from_slice(alloc, bytes)?;
    let fails = Vec::from_slice(alloc, fails)?;
    read_all(alloc, &mut MemSource::new(bytes, most, fails), limit)
}

#[test]
fn reads_whole_inputs(rt: HostRuntime) {
    let one: &[u64] = &[1];
    let none: &[u64] = &[];
    let rows: [(&[u8], usize, &[u64], usize, Result<&[u8], ReadStop>); 6] = [
        (b"rig", 1, none, 9, Ok(b"rig")),
        (b"rigplay", 5, none, 9, Ok(b"rigplay")),
        (b"rigplay", 5, none, 7, Ok(b"rigplay")),
        (b"rigplay", 5, none, 6, Err(ReadStop::TooLong)),
        (b"rigplay", 2, one, 9, Err(ReadStop::Fault)),
        (b"", 5, none, 0, Ok(b"")),
    ];
    for (bytes, most, fails, limit, want) in rows {
        assert!(rt; most > 0);
        let got = read_bytes(rt.alloc(), bytes, most, fails, limit);
        match (got, want) {
            (Ok(got), Ok(want)) => assert_eq!(rt; got.as_slice(), want),
            (Err(got), Err(want)) => assert_eq!(rt; got, want),
            _ => panic!(rt; "another kind of answer"),
        }
    }
}

#[test]
fn reads_an_input_of_several_pieces(rt: HostRuntime) -> Result<(), Fail> {
    let alloc = rt.alloc();
    let bytes = vec![in alloc; 7u8; 300_000]?;
    let whole = read_all(alloc, &mut PlainSource::new(bytes), 300_000)?;
    assert_eq!(rt; whole.len(), 300_000);
    Ok(())
}

#[test]
fn writes_whole_outputs(rt: HostRuntime) -> Result<(), Fail> {
    let alloc = rt.alloc();
    let one: &[u64] = &[1];
    let none: &[u64] = &[];
    let rows: [(usize, &[u64], Result<(), WriteFault>, &[u8]); 4] = [
        (99, none, Ok(()), b"copy-on-evaluation"),
        (18, none, Ok(()), b"copy-on-evaluation"),
        (10, none, Err(WriteFault), b"copy-on-ev"),
        (99, one, Err(WriteFault), b"copy-on-"),
    ];
    for (room, fails, want, written) in rows {
        let fails = Vec::from_slice(alloc, fails)?;
        let mut sink = MemSink::new(alloc, room, 8, fails)?;
        let got = write_all(&mut sink, b"copy-on-evaluation");
        assert!(rt; got == want);
        assert_eq!(rt; sink.written(), written);
    }
    assert!(rt; write_all(&mut PlainSink::new(), b"nowhere").is_ok());
    Ok(())
}

#[test]
fn a_list_keeps_its_values_in_order(rt: HostRuntime) -> Result<(), Fail> {
    let mut list = List::new(rt.alloc());
    assert!(rt; list.is_empty());
    list.push(3u32)?;
    list.push(5)?;
    assert_eq!(rt; list.len(), 2);
    let before = list.clone()?;
    list.set(0, 4);
    assert_eq!(rt; *list.get(0), 4);
    assert_eq!(rt; before.as_slice(), [3, 5].as_slice());
    assert!(rt; before != list);
    assert_eq!(rt; list.into_vec().as_slice(), [4, 5].as_slice());
    Ok(())
}

#[test]
fn a_list_is_changed_in_place(rt: HostRuntime) -> Result<(), Fail> {
    let mut list = List::from(Vec::from_slice(rt.alloc(), [2u32, 3, 5].as_slice())?);
    *list.get_mut(1) = 4;
    list.insert(0, 1)?;
    assert_eq!(rt; list.as_slice(), [1, 2, 4, 5].as_slice());
    assert_eq!(rt; list.remove(2), 4);
    list.insert(3, 9)?;
    list.retain(|value| *value != 5);
    assert_eq!(rt; list.as_slice(), [1, 2, 9].as_slice());
    Ok(())
}

#[test]
fn a_count_begins_at_0_and_rises_by_one(rt: HostRuntime) {
    let mut count = Count::new();
    count.tick();
    count.tick();
    assert_eq!(rt; count.count(), 2);
}

#[test]
fn says_what_went_wrong(rt: HostRuntime) -> Result<(), Fail> {
    let text = format!(in rt.alloc();
        "{NoMemory}, {WriteFault}, {}, {}",
        ReadStop::Fault,
        ReadStop::TooLong
    )?;
    assert_eq!(rt;
        text.as_str(),
        "out of memory, a write failed, a read failed, the input is longer than its limit"
    );
    Ok(())
}

fn crosses<T: Send + Sync>(_: &T) {}

#[test]
fn values_may_cross_threads(rt: HostRuntime) -> Result<(), Fail> {
    let alloc = rt.alloc();
    let list: List<u32> = List::new(alloc);
    crosses(&list);
    crosses(&Count::new());
    crosses(&MemSource::new(Vec::new(alloc), 1, Vec::new(alloc)));
    crosses(&MemSink::new(alloc, 1, 1, Vec::new(alloc))?);
    crosses(&PlainSource::new(Vec::new(alloc)));
    crosses(&PlainSink::new());
    crosses(&(NoMemory, WriteFault, ReadStop::Fault));
    Ok(())
}

/// A number behind a counted pointer. Contracts see the number alone.
#[derive(Drop)]
struct Shared {
    number: Arc<u32>,
}

impl Model for Shared {
    ghost use Rattle.std.specs.Prelude.{ℕ};

    ghost Value = { ℕ };

    ghost view = { λ s. s.number.value };
}

impl Share for Shared {
    fn share(&self) -> Result<Shared, NoMemory> {
        Ok(Shared {
            number: Arc::try_clone(&self.number)?,
        })
    }
}

#[test]
fn a_share_is_an_equal_value(rt: HostRuntime) -> Result<(), Fail> {
    let first = Shared {
        number: Arc::new(rt.alloc(), 7)?,
    };
    let second = first.share()?;
    crosses(&second);
    assert_eq!(rt; *second.number, 7);
    Ok(())
}

/// An output that takes so many bytes of each piece, or fails.
#[derive(Drop)]
struct Outlet {
    takes: Option<usize>,
}

impl Print for Outlet {
    fn print<D: Display + Drop>(&self, _: D) -> io::Result<()> {
        Ok(())
    }

    fn println<D: Display + Drop>(&self, _: D) -> io::Result<()> {
        Ok(())
    }

    fn write_all(&self, _: &[u8]) -> io::Result<()> {
        Ok(())
    }

    fn write_some(&self, bytes: &[u8]) -> io::Result<usize> {
        match self.takes {
            Some(n) => Ok(n.min(bytes.len())),
            None => Err(pipe_error()),
        }
    }
}

#[test]
fn standard_output_takes_some_or_fails(rt: HostRuntime) {
    for (takes, want) in [
        (Some(2), Put::Took(2)),
        (Some(9), Put::Took(4)),
        (Some(0), Put::Failed),
        (None, Put::Failed),
    ] {
        let outlet = Outlet { takes };
        assert!(rt; StdSink::new(&outlet).write(b"play") == want);
    }
    assert!(rt; write_all(&mut StdSink::new(&rt), b"played\n").is_ok());
}

fn pipe_error() -> io::Error {
    io::Error::from(io::ErrorKind::BrokenPipe)
}

/// An input of eight bytes.
#[derive(Drop)]
struct Inlet;

impl Input for Inlet {
    type Reader = &'static [u8];

    fn read_line<A: Allocator + Clone>(&self, _: &mut String<A>) -> io::Result<usize> {
        Ok(0)
    }

    fn lines<A: Allocator>(&self, alloc: A) -> Lines<&'static [u8], A> {
        self.reader().lines(alloc)
    }

    fn reader(&self) -> &'static [u8] {
        b"keyframe"
    }
}

/// An input, and a reader, of which every read fails.
#[derive(Drop)]
struct Broken;

impl Read for Broken {
    fn read(&mut self, _: &mut [u8]) -> io::Result<usize> {
        Err(pipe_error())
    }
}

impl BufRead for Broken {
    fn fill_buf(&mut self) -> io::Result<&[u8]> {
        Err(pipe_error())
    }

    fn consume(&mut self, _: usize) {}
}

impl Input for Broken {
    type Reader = Broken;

    fn read_line<A: Allocator + Clone>(&self, _: &mut String<A>) -> io::Result<usize> {
        Err(pipe_error())
    }

    fn lines<A: Allocator>(&self, alloc: A) -> Lines<Broken, A> {
        self.reader().lines(alloc)
    }

    fn reader(&self) -> Broken {
        Broken
    }
}

#[test]
fn standard_input_gives_its_bytes_or_fails(rt: HostRuntime) -> Result<(), Fail> {
    let alloc = rt.alloc();
    let bytes = read_all(alloc, &mut StdSource::new(&Inlet), 8)?;
    assert_eq!(rt; bytes.as_slice(), b"keyframe".as_slice());
    match read_all(alloc, &mut StdSource::new(&Broken), 8) {
        Ok(_) => panic!(rt; "a failing input was read"),
        Err(stop) => assert_eq!(rt; stop, ReadStop::Fault),
    }
    Ok(())
}
