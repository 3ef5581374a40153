//! What runs a plan, and who looks on.
//!
//! # Rules
//!
//! - A [`Watch`] is told of each node of a plan that starts, by its position in the plan, on the thread that runs it. It can't change what is
//!   evaluated.
//! - [`Quiet`] does nothing.
//!
//! Nothing runs here yet: plans that several workers take from come later.
#![tactic(auto)]

/// Who is told of the nodes of a plan that start.
pub trait Watch {
    /// The node at a position of the plan starts.
    fn started(&self, node: u32);
}

/// A watch that does nothing.
#[derive(Clone, Copy, Debug, Default)]
pub struct Quiet;

impl Watch for Quiet {
    fn started(&self, _node: u32) {}
}
