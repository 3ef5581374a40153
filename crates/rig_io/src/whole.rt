//! Whole inputs and whole outputs, over sources and sinks that give and take pieces of any size.
ghost use Rattle.std.specs.Prelude.{◌≡◌, ◌≢◌, ◌<◌, ◌≤◌, [], length, take, IfOk, OnOk, OnErr, IsTrue};
ghost use Rattle.std.specs.Vec.{vec_len};
ghost use Rattle.rig_io.specs.Faults.{rose};
ghost use Rattle.rig_io.specs.Bytes.{Gave, GaveAll, GaveAtMost, GaveOneMore, Appended, AppendedPrefix};
ghost use Rattle.rig_io.specs.Got.{OnBytes};

use crate::sink::{Put, Sink};
use crate::source::{Got, Source};
use std::alloc::{AllocError, Global};
use thiserror::Error;

/// The size of the first pieces, in bytes.
const FIRST_PIECE: usize = 65_536;

/// The largest size of a piece, in bytes.
const LARGEST_PIECE: usize = 1_048_576;

/// Why an input was not read to its end.
#[derive(Clone, Copy, Debug, PartialEq, Eq, Error)]
pub enum ReadStop {
    /// Memory was refused.
    #[error("out of memory")]
    NoMemory,
    /// A read failed.
    #[error("a read failed")]
    Fault,
    /// More bytes came than the limit allows.
    #[error("the input is longer than its limit")]
    TooLong,
}

impl From<AllocError> for ReadStop {
    ghost use Rattle.std.specs.Prelude.{◌≡◌};
    ghost use Rattle.rig_io.specs.declared.whole.ReadStop.TheVariants.{NoMemory as stopped_for_memory};

    ghost from_gives = { λ _ stop. stop ≡ stopped_for_memory };

    fn from(_: AllocError) -> Self {
        ReadStop::NoMemory
    }
}

/// A write failed before all was written.
#[derive(Clone, Copy, Debug, PartialEq, Eq, Error)]
#[error("a write failed")]
pub struct WriteFault;

/// Reads at most so many bytes into the piece's prefix.
fn read_piece<S: Source>(source: &mut S, piece: &mut [u8], most: usize) -> Got
    requires piece { 0 < length piece.old }
    requires most { 0 < most }
    ensures some { OnBytes result (λ n. (0 < n) × (n ≤ length piece.old) × (n ≤ most)) }
    ensures gave { OnBytes result (λ n. Gave (S.left source.old) (S.left source.new) (take n piece.new)) }
    ensures end { result ≡ Got.End → GaveAll (S.left source.old) (S.left source.new) [] }
    ensures kept { result ≡ Got.Failed → S.left source.new ≡ S.left source.old }
    ensures failed { result ≡ Got.Failed → IsTrue (rose (S.faults source.old) (S.faults source.new)) }
    ensures no_fault { result ≢ Got.Failed → S.faults source.new ≡ S.faults source.old }
    ensures faults { S.faults source.old ≤ S.faults source.new }
{
    let room = piece.len().min(most);
    source.read(&mut piece[..room])
}

/// A piece of zeros.
fn new_piece(alloc: Global, size: usize) -> Result<Vec<u8>, AllocError>
    ensures { IfOk result (λ v. vec_len v ≡ size) }
{
    vec![in alloc; 0; size]
}

/// Doubles the piece, up to its largest size.
fn grow_piece(piece: &mut Vec<u8>) -> Result<(), AllocError>
    ensures { vec_len piece.old ≤ vec_len piece.new }
{
    let len = piece.len();
    if len <= LARGEST_PIECE / 2 {
        piece.resize(len * 2, 0)?;
    }
    Ok(())
}

/// Reads to the end of the source, up to `limit` bytes.
///
/// # Errors
///
/// The bytes that came are lost, and the source goes on behind them.
///
/// - [`ReadStop::TooLong`]: the source has more than `limit` bytes; `limit + 1` were taken.
/// - [`ReadStop::Fault`]: a read failed, which isn't tried again; at most `limit` bytes were taken.
/// - [`ReadStop::NoMemory`]: at most `limit` bytes were taken.
pub fn read_all<S: Source>(alloc: Global, source: &mut S, limit: usize) -> Result<Vec<u8>, ReadStop>
    ensures ok { IfOk result (λ v. GaveAll (S.left source.old) (S.left source.new) v.items) }
    ensures within { IfOk result (λ v. vec_len v ≤ limit) }
    ensures fault { result ≡ Err ReadStop.Fault → IsTrue (rose (S.faults source.old) (S.faults source.new)) }
    ensures fault_within { result ≡ Err ReadStop.Fault → GaveAtMost (S.left source.old) (S.left source.new) limit }
    ensures no_memory_within { result ≡ Err ReadStop.NoMemory → GaveAtMost (S.left source.old) (S.left source.new) limit }
    ensures too_long { result ≡ Err ReadStop.TooLong → GaveOneMore (S.left source.old) (S.left source.new) limit }
    ensures no_fault { result ≢ Err ReadStop.Fault → S.faults source.new ≡ S.faults source.old }
    ensures faults { S.faults source.old ≤ S.faults source.new }
{
    let mut piece = new_piece(alloc, FIRST_PIECE)?;
    let mut bytes = Vec::new(alloc);
    loop {
        let rest = limit - bytes.len();
        match read_piece(source, &mut piece, rest.saturating_add(1)) {
            Got::Bytes(n) => {
                if n > rest {
                    return Err(ReadStop::TooLong);
                }
                bytes.extend_from_slice(&piece[..n])?;
                if n == piece.len() {
                    grow_piece(&mut piece)?;
                }
            }
            Got::End => return Ok(bytes),
            Got::Failed => return Err(ReadStop::Fault),
        }
    }
}

/// Writes all the bytes.
///
/// # Errors
///
/// [`WriteFault`]: a write failed, which isn't tried again; a prefix of the bytes was written.
pub fn write_all<K: Sink>(sink: &mut K, bytes: &[u8]) -> Result<(), WriteFault>
    ensures ok { OnOk result (Appended (K.written sink.old) (K.written sink.new) bytes.now) }
    ensures err { OnErr result (AppendedPrefix (K.written sink.old) (K.written sink.new) bytes.now) }
    ensures cause { OnErr result (IsTrue (rose (K.faults sink.old) (K.faults sink.new))) }
    ensures no_fault { OnOk result (K.faults sink.new ≡ K.faults sink.old) }
    ensures faults { K.faults sink.old ≤ K.faults sink.new }
{
    let mut done = 0;
    while done < bytes.len() {
        match sink.write(&bytes[done..]) {
            Put::Took(n) => done += n,
            Put::Failed => return Err(WriteFault),
        }
    }
    Ok(())
}
