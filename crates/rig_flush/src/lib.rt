//! What has to run again after edits: tags, the tags after an edit, and the operations that they lead to. And a whole scene at a frame,
//! with nothing kept.
//!
//! # Examples
//!
//! Of a scene with the empties Root, which moves by an action, and Child, whose parent is Root. Its operations are the time, Root's
//! animation, local and world transform, and Child's two, with the numbers 0 to 5:
//!
//! ```text
//! tags = Tags::new(alloc), tags.add(Animation(Root))
//! flush(alloc, &nodes, &links, &tags)              a plan of 4: Animation(Root), Local(Root), World(Root), World(Child)
//! retag(.., &tags, &[Local(Child)])                Animation(Root), Local(Child): an edit that touched Local(Child) was taken
//! scratch(alloc, &scene, Viewport, 6, &mut tally)  the world transforms of Root and Child at frame 6; the tally rose by 6
//! ```
//!
//! # Rules
//!
//! - An operation is reached from a tagged one where in-links that aren't cut lead from the one to the other, or where it is
//!   tagged itself (`specs/Reach.antt`). [`flush`] plans what is reached, in the order of evaluation of the links. A node's in-links in the
//!   plan are its in-links that aren't cut from operations of the plan.
//! - After an edit an operation of the new scene is tagged where it was tagged, where the edit touched it, where the old scene hadn't it,
//!   or where its in-links are others than before, by the operations that they name and their cut marks (`specs/Retag.antt`).
//! - [`scratch`] runs every operation once, and shows of each object its world transform, its bones and its finished geometry. The values
//!   are those of the definitions, with no graph.
//! - What one graph does at each event, and what it keeps between two frames, is written down in `specs/Graph.antt`.
//! - [`flush`] takes time by what it reaches, but for one list of numbers that is made at its start. [`flush_into`] has the caller keep that. Want of memory is the only error
//!   of all of them.
//!
//! Which operations an edit touches is said by `rig_touch`, and what one gives by `rig_kernel`.
#![tactic(auto)]

mod edited;
pub mod events;
mod from_scratch;
pub mod laws;
mod order;
mod reached;
mod shown;
mod tags;

pub use edited::retag;
pub use from_scratch::scratch;
pub use reached::{flush, flush_into};
pub use shown::shown_numbers;
pub use tags::Tags;
