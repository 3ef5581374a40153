//! What is computed of a scene, and what each of it needs: the quantities of a scene in order, and the reads of a quantity.
//!
//! # Examples
//!
//! An object Body without a parent, and an empty object Hat that the second bone of Body's armature carries:
//!
//! ```text
//! quantities(alloc, scene)                 Local(Body), World(Body), Bone(Body, 0), Bone(Body, 1), Local(Hat), World(Hat)
//! reads(alloc, scene, World(Hat))          Local(Hat) inner, World(Body) and Bone(Body, 1) reference
//! reads(alloc, scene, Bone(Body, 1))       Bone(Body, 0) inner
//! reads(alloc, scene, Local(Hat))          nothing: none of its channels is driven
//! ```
//!
//! # Rules
//!
//! - The quantities of the pencils come first, then those of the objects, each in the order of the scene. Of each the driven
//!   channels come first, in the order of the drivers.
//! - No quantity stands twice, and a scene has less than 65,536 of them (`rig_scene::laws`).
//! - A driven channel reads what its variables name: driven channels and transforms. A channel that isn't driven is no read.
//! - A local transform, a bone and a layer read their driven channels, in the order of the channels.
//! - An object reads its parent, and the bone of its parent that carries it. A bone reads its parent, a layer its bone.
//! - Geometry reads the layers of its pencil, or the geometry before the last modifier; after a mirror about a centre it reads
//!   the transforms of its own object and of the centre as well.
//! - Reads of a parent object, of the bone that carries something, of a centre and of a driver's variables are reference reads.
//! - What the scene doesn't have reads nothing, and neither does a channel that isn't driven.
//!
//! [`quantities`] takes time in proportion to the quantities. A call of [`reads`] walks over all drivers: a table of the reads of
//! a whole scene groups the drivers first. Nothing here is computed at a frame, and no cycle is cut.
#![tactic(auto)]

mod driven;
mod find;
mod quantity;
mod read;
mod slots;
#[cfg(test)]
mod tests;

pub use quantity::quantities;
pub use read::reads;
