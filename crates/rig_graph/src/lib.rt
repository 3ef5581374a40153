//! The dependency graph of a scene: takes edits, and publishes frames that equal evaluating from scratch, running what changed alone.
//!
//! # Rules
//!
//! - A [`Graph`] has a copy of its scene, which follows the edits that it [takes](Graph::take). Nothing else changes it.
//! - What an edit can change is tagged. An evaluation runs what is tagged and all that needs it along in-links that aren't cut, each once
//!   and after all that it needs, and keeps every other output. Where the frame is another than the last one, the time is tagged first.
//! - The frame that an [evaluation](Graph::evaluate) publishes is what its scene shows from scratch, with the reads that are cut.
//! - An edit that can't change which operations there are or what they need takes time by what it touches. Any other one makes the tables
//!   of the scene anew, and outputs are kept by operation.
//! - Where memory is refused, nothing is lost: an evaluation leaves all but the tags as they were, and of several edits the first ones
//!   are taken.
//!
//! # Examples
//!
//! ```text
//! let mut graph = Graph::open(alloc, scene, Mode::Viewport)?;                 all operations are tagged
//! graph.evaluate(alloc, 6, &Quiet, &mut tallies)?                              ran: 6 of 6
//! graph.take(alloc, &[Entry { turn: 1, edit }])?                               Child's loc.y is 3: its Local is tagged
//! graph.evaluate(alloc, 6, &Quiet, &mut tallies)?                              ran: 2 of 6
//! graph.published()                                                            Child's world at 7000000 3 0
//! ```
#![tactic(auto)]

mod at_links;
mod frame;
mod graph;
mod last_plan;
mod opening;
mod ready;
mod report;
mod run;
mod scene_copy;
mod taking;

pub use graph::Graph;
pub use report::Report;
