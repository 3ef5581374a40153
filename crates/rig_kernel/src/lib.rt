//! One operation of a dependency graph: its output, made of the outputs that it takes from its in-links.
//!
//! # Examples
//!
//! Of a scene with the empties Root, which moves along x by a curve, and Child, whose parent is Root (in millionths):
//!
//! ```text
//! tables = SceneTables::new(alloc, &scene)
//! time   = run_op(Time, .., frame 6, [])                        [6]
//! moved  = run_op(Animation(Root), .., [time])                  [5_000_000]: the value of its one curve
//! local  = run_op(Local(Root), .., [moved])                     loc (5_000_000, 0, 0)
//! world  = run_op(World(Root), .., [local])                     the same transform
//! child  = run_op(World(Child), .., [local of Child, world])    loc (7_000_000, 0, 0), where Child stands at 2_000_000
//! rest(World(Root))                                             the identity: what a cut link gives
//! ```
//!
//! # Rules
//!
//! - The inputs are those of the operation's in-links, in their order. One operation can stand twice among them.
//! - The value is `kernel` of `rig_laws/specs/Kernel.antt`. Where each input is its operation's value from scratch, or the rest value at a
//!   cut link, it is the operation's value from scratch.
//! - The frame is looked at by the time alone. All others take it from their inputs.
//! - [`run_op`] counts one more operation on its tally, whatever it answers. Want of memory is its only error.
//! - An operation whose strokes are those of an input shares them: the end of a geometry, a modifier that is off or would make too
//!   many points, a geometry to which one layer alone brings strokes.
//! - [`SceneTables`] are made once for a scene. After an edit of drivers they are brought up to date, and no other edit changes them.
//! - [`run_op_into`] takes inputs wherever they stand ([`Inputs`]), and puts the output into the memory of one that is no longer wanted.
//!
//! Nothing here knows which operations there are, in which order they run, or which of them have to.
#![tactic(auto)]

mod action_curves;
mod animation;
mod bone_names;
mod bones_at_rest;
mod channel_curves;
mod channels;
mod done;
mod driven;
mod driver;
mod driver_index;
mod geometry;
mod inputs;
mod layer;
mod output;
mod pose;
mod records;
mod run;
mod tables;
mod transform;
mod value;

pub use channel_curves::{AxisCurves, ChannelCurves};
pub use done::Done;
pub use inputs::Inputs;
pub use output::{Out, rest};
pub use run::{run_op, run_op_into};
pub use tables::SceneTables;
pub use value::{SharedStrokes, Value};
