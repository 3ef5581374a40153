//! The program over a source of bytes and a sink for them: words, reading, playing and printing.
//!
//! # Examples
//!
//! [`run`] with the words `rigplay eval`, over a source with this input:
//!
//! ```text
//! {"scene": {"version": 1, "objects": [{"name": "ball", "kind": "empty"}]},
//!  "script": {"tracks": [{"mode": "viewport", "steps": [
//!     {"edit": "set", "object": "ball", "channel": "loc.z", "value": -40},
//!     {"frame": 3}]}]}}
//! ```
//!
//! ends with [`Status::Ok`], counts three operations, and leaves this in the sink:
//!
//! ```text
//! turn 0 track 0 step 0 accepted
//! turn 1 track 0 step 1 look
//! track 0 viewport
//! step 0 accepted turn 0
//! step 1 frame 3 turn 1 ran 3 of 3
//! frame 3 viewport
//! cuts 0
//! object 0 0 -40 1000000 0 0 0 1000000 ball
//! end
//! ```
//!
//! # Rules
//!
//! - The words are read by clap. Of the four commands `eval` is built.
//! - An input is read whole, up to its limit of bytes, and tested whole, before anything is played: that it is JSON, its scene, and
//!   then its script. The first fault is printed. All text is made before the first byte is written: want of memory leaves the
//!   sink as it was.
//! - Each way to end has a [`Status`]. A failed read or write is never passed over: it ends the run, by its own status.
//! - Each printed frame is the scene's state from scratch after the edits before it. What is counted is what the flush
//!   reaches: an edit leads to the operations of its object, a new frame to Time and those of objects with an action.
//! - A refused edit changes nothing, and its reply is printed.
//! - The plain engine plays empty objects that nothing carries, turns or scales, with constant keys on their locations, and one track of
//!   frames that aren't full and of sets of a location. Other inputs without a fault end with [`Status::Unbuilt`], until the
//!   graph takes the engine's place.
#![tactic(auto)]

mod animation;
mod check;
mod command;
mod engine;
mod input;
mod plain;
mod play;
mod program;
mod status;

pub use program::{run, run_plain};
pub use status::Status;
