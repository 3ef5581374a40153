//! The in-links of a scene's operations by number, which of them are cut, an order of evaluation, and the cut reads.
//!
//! # Examples
//!
//! Of a scene with the empties A and B, where A is B's parent and A's `loc.x` is driven by B's world `loc.x`:
//!
//! ```text
//! nodes = nodes(alloc, &scene)       Time, Driver(A, loc.x), Local(A), World(A), Local(B), World(B)
//! table = links(alloc, &scene, &nodes)
//! table.ins(1)                       [5]: the driver needs B's world transform
//! table.ins(5)                       [4, 3 (cut)]: B's local transform, and A's world transform
//! table.links()                      5
//! table.readers(5)                   [1]
//! table.readers(3)                   []: its only link is cut
//! table.order()                      [0, 4, 5, 1, 2, 3]
//! table.place(5)                     2
//! cycle_report(alloc, &scene)        World(A) -> World(B)
//! ```
//!
//! # Rules
//!
//! - The in-links of an operation are in order, and one operation can stand twice among them.
//! - A link that stands for a reference read is cut where that read is: where it would close a cycle with those that are tested
//!   before it and with all that are no reference reads. Every other link is kept.
//! - [`LinkTable::links`] counts cut links too. [`LinkTable::readers`] and [`LinkTable::order`] go by the others.
//! - The order has each operation once, behind all that it needs by links that are kept. Ties are free. [`LinkTable::place`] tells
//!   where an operation stands in it, with no search.
//! - The tables are made for one scene. After an edit that changes its operations or their links they are made anew.
//! - Only [`links`], [`LinkTable::cut_reads`] and [`cycle_report`] allocate. Their only error is want of memory.
//!
//! Nothing here evaluates an operation. Making the table takes time by the number of links, but for the cut: it takes one walk for each
//! reference link whose reader is needed by a kept link already, along what its source needs.
#![tactic(auto)]

mod builder;
mod driven;
mod driver;
mod geometry;
mod layer;
mod numbered;
mod places;
mod pose;
mod records;
mod report;
mod rows;
mod scene_links;
mod table;
mod transform;

pub use builder::links;
pub use report::cycle_report;
pub use table::{In, LinkTable};
