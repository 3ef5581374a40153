//! The program's edge: traits for where bytes come from, where they go and what is counted, so that contracts above can
//! name the bytes that were read and written.
//!
//! # Examples
//!
//! A source of 7 bytes that gives at most 5 a read, read whole under two limits:
//!
//! ```text
//! read_all(alloc, &mut MemSource::new(b"rigplay", 5, []), 7)   Ok(b"rigplay")
//! read_all(alloc, &mut MemSource::new(b"rigplay", 5, []), 6)   Err(TooLong), and 7 bytes were taken
//! read_all(alloc, &mut MemSource::new(b"rigplay", 5, [1]), 9)  Err(Fault): the second read fails, 5 bytes were taken
//! ```
//!
//! # Rules
//!
//! - A [`Source`] gives a piece, its end or a fault; a [`Sink`] takes a prefix of a piece, at least 1 byte, or fails.
//! - A call that fails gives or takes nothing, and raises the count of faults by 1. Every other call leaves that count.
//! - A read leaves the buffer behind the bytes that it gave.
//! - [`read_all`] and [`write_all`] try nothing again: with Ok no call failed.
//! - [`read_all`] takes at most `limit` bytes, and one more where it answers [`ReadStop::TooLong`].
//! - A count, of faults or of a [`Tally`], begins at 0 and stands still at `u64::MAX`.
//! - A [`List`] is its values: a clone has clones of them, and `==` compares them index by index. It is changed in place.
//! - A [`Share`] gives another owner of an equal value.
//!
//! Only [`StdSource`] and [`StdSink`] touch the system, and no contract tells what bytes it gives or takes. Nothing here
//! decodes text, seeks, or closes anything.
#![tactic(auto)]

mod list;
mod memory;
mod memory_io;
mod share;
mod sink;
mod source;
mod standard;
mod tally;
#[cfg(test)]
mod tests;
mod whole;

pub use list::List;
pub use memory::NoMemory;
pub use memory_io::{MemSink, MemSource, PlainSink, PlainSource};
pub use share::Share;
pub use sink::{Put, Sink};
pub use source::{Got, Source};
pub use standard::{StdSink, StdSource};
pub use tally::{Count, Tally};
pub use whole::{ReadStop, WriteFault, read_all, write_all};
