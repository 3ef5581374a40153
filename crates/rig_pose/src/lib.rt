//! Transforms of objects and bones: by what carries them, how a bone stands at rest, and how it deforms what is bound to it
//! (Blender Manual, Armatures).
//!
//! # Example
//!
//! Two bones, each one unit up from its parent, in millionths. The upper bone's pose moves it half a unit along x:
//!
//! ```text
//! rest_chain(&armature, 0)                    loc 0, 1_000_000, 0
//! rest_chain(&armature, 1)                    loc 0, 2_000_000, 0
//! bone_of(None, &rest, &pose)                 loc 500_000, 1_000_000, 0
//! deform_of(&bone, &rest_chain(&armature, 0)) takes a point at 1, 2, 3 to 500_001, 2, 3
//! ```
//!
//! # Rules
//!
//! - The transform of eight numbers has the rotation of its four numbers, brought to one unit, and a scale of at least 1.
//! - What has a parent stands in the parent's space: its transform is composed with that of the parent.
//! - A bone stands by its pose, within its rest, within its parent bone. At rest there is no pose.
//! - A bone deforms what is bound to it from where it rests to where it stands.
//! - Nothing allocates or fails.
//!
//! # What it doesn't do
//!
//! No constraints, no inverse kinematics, no envelopes or weights: what is bound to a bone follows it whole.
#![tactic(auto)]

mod bone;
mod object;
#[cfg(test)]
mod tests;

pub use bone::{bone_of, deform_of, rest_chain};
pub use object::{local_of, world_of};
