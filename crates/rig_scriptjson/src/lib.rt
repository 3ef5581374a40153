//! The reader of scripts: the script of an input, or its first fault.
//!
//! # Examples
//!
//! This input gives a viewport track of an edit and a frame:
//!
//! ```text
//! {"scene": {"version": 1}, "script": {"tracks": [{"mode": "viewport", "steps": [
//!     {"edit": "set", "object": "Child", "channel": "loc.y", "value": 3},
//!     {"frame": 6, "full": true}]}]}}
//! ```
//!
//! Without `"mode"` it gives the fault [`Cause::WrongKind`](rig_scenejson::Cause::WrongKind) at
//! `/script/tracks/0/steps/1/frame`: only a track that owns a mode evaluates frames.
//!
//! # Rules
//!
//! - Unknown members are ignored, and a member that is null counts as absent. An absent list is empty.
//! - There is one pass, over the tracks and their steps by index, and the members in order. The first fault is answered.
//! - A step with `frame` and without `edit` is a frame; every other step is an edit.
//! - The whole numbers of an edit are any of 64 bits. Whether they are in range is asked when the edit is applied, as is what
//!   its names mean.
//! - A script is answered exactly where there is no fault, and it is the one that the members give. Want of memory is the only
//!   other answer.
//!
//! Nothing here looks at the scene.
#![tactic(auto, using(crate::proofs::First::first_append))]

mod before;
mod drivers;
mod edits;
mod lists;
mod members;
mod modifiers;
mod objects;
mod pencils;
mod script;
mod steps;
mod tracks;
mod values;

pub use script::{Script, ScriptStop, Step, Track, script_of};
