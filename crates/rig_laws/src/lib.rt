//! What holds between the definitions of a scene: the laws on which its links, its evaluation and its flush rest.
//!
//! `rig_scene` says what a scene's quantities, reads, cuts, values, operations and in-links are, each for itself. Take an
//! object and its child. The child's world transform has rank 2; it reads its own local transform, of rank 1, as an inner
//! read, and the parent's world transform, of rank 2, as a reference read. All three are quantities of the scene, and the
//! value of the first is that of a world transform over the values of the other two.
//!
//! - [`reads`]: inner reads fall in rank, and kept reads make no cycle. Whether a read is cut is told by its source and
//!   reader. What a quantity of a scene reads is a quantity of it.
//! - [`values`]: a value looks only at what its quantity reads. Each quantity of a scene has one, which follows from the
//!   values of its sources with no depth, and no other values follow so.
//! - [`operations`]: what an operation of a scene needs is an operation of it. In-links that aren't cut make no cycle,
//!   and there are fewer than 262,144.
//! - [`links`]: in-links as reads between operations, before it is known which are cut. Whatever numbers the operations have,
//!   the same of them are cut as of the reads between quantities. The in-links that are cut are the cut reads.
//! - [`kernel`]: the value of an operation over the outputs that it takes from its in-links (`specs/Kernel.antt`). Over values from scratch
//!   it is the operation's value from scratch, and no operation but the time looks at the frame.
//! - [`examples`], [`kernel_examples`]: what this crate's own definitions give on small scenes.
//!
//! Each law is a function without a body, whose contract is the law. It is also a lemma in `specs/`, which proofs of the
//! crates above cite. Nothing here runs. What a definition of `rig_scene` gives on an example stands there.
#![tactic(auto)]

pub mod examples;
pub mod kernel;
pub mod kernel_examples;
pub mod links;
pub mod operations;
pub mod reads;
pub mod values;
