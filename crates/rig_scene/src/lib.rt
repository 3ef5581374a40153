//! The records of a scene for animation rigs, the names of what is computed of it, and the definitions of all values.
//!
//! Of a curve with linear keys 0 at frame 1 and 10,000,000 at frame 11, the value at frame 6 is 5,000,000: half of the way,
//! in millionths. An object Child two units from its parent Root, whose `loc.x` that curve animates, stands at 7,000,000
//! in the world then ([`laws::a_child_moves_with_its_parent`]).
//!
//! - Records are plain data with public fields. [`Scene`] alone keeps conditions over several of them: names are distinct,
//!   what is named is there, frames and ids rise, and the counts keep the [`limits`]. It has the number of all keys of curves
//!   and of layers beside its lists, so that an edit needn't count them.
//! - A [`Quantity`] is a value that a scene has at a frame, an [`OpId`] the operation that computes it, and a [`Read`] what
//!   one quantity needs of another. A reference read that would close a cycle is cut ([`CutRead`]), and gives the rest
//!   value of its source.
//! - `specs/` defines the quantities of a scene, their reads, which reads are cut, the operations with their in-links, and
//!   the value of each quantity at a frame, from scratch. Every crate above cites these definitions.
//! - Keys rise by their frames, and one search by halves finds the keys around a frame ([`index_after`], [`keys_around`]).
//! - A channel has one word and one number ([`Channel`], [`Axis`]).
//!
//! This crate evaluates nothing: no curve, no transform and no strokes are computed here.
#![tactic(auto)]

mod action;
mod armature;
mod channel;
mod counts;
mod driver;
mod find;
mod id;
mod keys;
pub mod laws;
pub mod limits;
mod modifier;
mod name;
mod object;
mod operation;
mod path;
mod pencil;
mod quantity;
mod scene;
pub mod value_laws;

pub use action::{Action, Curve, Interp, Key};
pub use armature::{ArmatureData, RestBone};
pub use channel::{Axis, Channel, Channels};
pub use counts::{key_count, layer_key_count};
pub use driver::{Driver, DriverKind, Space, Variable};
pub use id::{AnimId, ObjectId};
pub use keys::{Keyframe, index_after, index_from, keys_around};
pub use modifier::{Effect, Mirror, Mode, Modifier};
pub use name::{Name, NameStop};
pub use object::{Kind, Object, Parent};
pub use operation::{Component, OpId};
pub use path::Path;
pub use pencil::{BoneRef, Drawing, Layer, LayerKey, PencilData, Stroke, Strokes};
pub use quantity::{CutRead, Quantity, Read};
pub use scene::Scene;
