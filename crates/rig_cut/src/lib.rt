//! Which links of a dependency graph are cut, so that those that are kept make no cycle, an order of evaluation, and plans
//! of operations to run. Nodes are numbers.
//!
//! # Examples
//!
//! ```text
//! links, all references:  2 is read by 1, 3 by 2, 1 by 3, 3 by 1
//! cut(alloc, 4, links)
//!     cuts     [false, false, true, false]: 1 leads to 3 by the first two
//!     order    [0, 3, 2, 1]
//!
//! plan = Plan::new(alloc)
//! plan.push(7, [])              Ok
//! plan.push(4, [0])             Ok
//! plan.push(9, [0, 1])          Ok
//! plan.ins(2)                   [0, 1]
//! plan.sources()                [0, 0, 1]
//! plan.first_link(2)            1
//! ```
//!
//! # Rules
//!
//! - A link is of a source by a reader. Its source leads to what the source is, and to what the sources of its kept links
//!   lead to.
//! - Inner links are always kept, and the caller guarantees that they make no cycle. References are tested in their order:
//!   one is cut where its source already leads to its reader by kept links, or is its reader. A kept one takes part in
//!   later tests, a cut one doesn't.
//! - The order has each node once, behind the sources of its kept links.
//! - The in-links of a node of a [`Plan`] are of earlier nodes. A plan has at most [`MAX_NODES`] nodes.
//! - Only [`cut`] and [`Plan::push`] allocate. Their only error is want of memory.
//!
//! Nothing here knows what a node is or runs an operation, and a cut isn't kept up to date: it is made anew from all
//! links. A test makes no walk where its reader is no source of a kept link so far, as then nothing else leads to the reader. Any
//! other test walks along the kept links that its source leads to, so many such references in long chains are slow.
#![tactic(auto)]

mod cuts;
pub mod examples;
mod graph;
pub mod laws;
mod links;
mod nodes;
mod order;
mod plan;
#[cfg(test)]
mod tests;
mod walk;

pub use cuts::cut;
pub use links::{Cut, Link};
pub use nodes::NodeSet;
pub use plan::{MAX_NODES, Plan};
