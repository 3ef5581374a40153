//! What is noted of an operation while it runs.
use rig_io::List;

/// An operation, by its number, starts or finishes.
#[derive(Clone, Copy, Debug, PartialEq, Eq)]
pub enum Mark {
    /// The operation takes its inputs.
    Start(u32),
    /// Its output is kept.
    Finish(u32),
}

/// Marks in the order in which they were made.
pub type Trace = List<Mark>;
