//! What is told of an evaluation.
use rig_pending::Trace;

/// What an evaluation did.
#[derive(Debug, Drop)]
pub struct Report {
    /// How many operations ran.
    pub ran: u32,
    /// How many operations the scene has.
    pub operations: u32,
    /// How many in-links they have, cut ones among them.
    pub links: u32,
    /// When each operation that ran started and finished, by its number.
    pub trace: Trace,
}
