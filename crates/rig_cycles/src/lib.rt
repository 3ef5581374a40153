//! Which relations of a dependency graph are cut, so that those that are kept make no cycle, and what follows from it.
//!
//! A read is of a source by a reader. Some reads are always kept. The others, the reference reads, are tested in their
//! order. With the reads of 2 by 1, of 3 by 2, of 1 by 3 and of 3 by 1, in this order and none kept before, the third
//! is cut, as 1 depends on 2, and 2 on 3. The others are kept.
//!
//! - A node leads to the nodes that it depends on: to itself, and by a walk along reads, each from its reader to its
//!   source, where the next one begins.
//! - A reference read is cut where its source already leads to its reader by kept reads, or is its reader.
//! - A cut read stays out of later tests. A kept one takes part in them.
//! - Where the reads that are always kept make no cycle, all kept reads make none, the reads of one source by one reader
//!   are all cut or all kept, and a function by recursion along kept reads needs no more depth than there are nodes.
//!
//! The nodes may be of any type with a test of equality. This crate has definitions and laws, and nothing that runs: it
//! finds no walk and cuts no list at run time.
#![tactic(auto)]

pub mod examples;
pub mod laws;
