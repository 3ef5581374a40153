//! Evaluated copies: the output that a dependency graph keeps of each operation from one evaluation to the next, by the operation's
//! number.
//!
//! # Examples
//!
//! Of a scene with the operations Time, Local(A), World(A), Local(B), World(B), with the numbers 0 to 4:
//!
//! ```text
//! copies = Copies::new(alloc)
//! copies.extend_to(5)
//! copies.reserve(2)
//! copies.put_all(&plan, outs)    the plan has the operations 0 and 3, outs are their outputs
//! copies.get(3)                  Some: the output of Local(B)
//! copies.get(4)                  None: it wasn't evaluated yet
//! copies.rebind(&old, &new)      A is gone: the numbers are now those of Time, Local(B), World(B)
//! copies.get(1)                  Some: the output of Local(B), as before
//! copies.get(3)                  None: no operation has that number
//! ```
//!
//! # Rules
//!
//! - At most one output is kept at a number. [`Copies::put_all`] replaces what is there, and leaves what is kept at other numbers.
//! - It allocates nothing, so an evaluation that reserved room before can't fail any more once its outputs are there.
//! - [`Copies::rebind`] follows an edit that adds, removes or moves operations: what is kept of an operation stays kept of it
//!   (`specs/Copies.antt`, `renumbered`). No output is shared or copied for that.
//! - An output that was replaced waits at its number until it is taken or another one is replaced there ([`Copies::take_spare`]), so at
//!   most two outputs stand at a number. Where nobody shares it, the next output of its operation is written into its memory.
//! - After want of memory what is kept is as it was.
//!
//! Nothing here runs an operation, or knows whether an output is up to date. That the output at a number is of that number's operation
//! is for the caller to see to; [`laws`] says what keeps it so.
#![tactic(auto)]

mod copies;
mod keys;
pub mod laws;
mod room;
#[cfg(test)]
mod tests;

pub use copies::Copies;
