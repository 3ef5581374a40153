//! Which operations an edit touches: those whose value it can change by itself. And which edits keep all links.
//!
//! # Examples
//!
//! Of a scene with the empties Root, which uses the action Move, and Child, with the ids 0 and 1, where Root carries Child:
//!
//! ```text
//! touch(alloc, &scene, SetKey { action: "Move", path: Own(LocX), .. })           Animation(Object(0)): Root uses Move
//! touch(alloc, &scene, SetValue { id: Object("Child"), path: Own(LocY), .. })    Local(1)
//! touch(alloc, &scene, SetParent { object: "Child", parent: None })              World(1)
//! touch(alloc, &scene, SetValue { id: Object("Nobody"), path: Own(LocY), .. })   nothing
//! ```
//!
//! # Rules
//!
//! [`touch`] goes by the scene before the edit.
//!
//! - `SetValue` touches what has the number, which is the object's local transform, the bone or the layer, and then each driver with
//!   a property variable that names the channel.
//! - `SetKey` and `DeleteKey` touch the animation of each pencil and each object that uses the action, whatever the path of the key.
//! - `SetFlag` of a modifier's switch touches that modifier, in either mode. Of a layer's `hidden` it touches the geometry of each
//!   object of the pencil, and not the layer: a hidden layer has its strokes all the same.
//! - `MovePoint` touches the layers of the pencil with a key of the drawing, at whatever frame that key is. A drawing that no key
//!   shows touches nothing.
//! - `SetLayerKey` and `DeleteLayerKey` touch the layer.
//! - `SetParent` touches the world transform of the object.
//! - `SetDriver` touches the driver of the channel, whether there is one already or not.
//! - `RemoveModifier` touches the modifier and all above it, whose numbers shift.
//! - `ClearDriver`, `AddObject`, `RemoveObject` and `AddModifier` touch nothing.
//! - Names that mean nothing touch nothing.
//!
//! An accepted edit leaves each operation that it doesn't touch, and whose in-links stay the same, with the same value over the same
//! inputs ([`laws::an_untouched_operation_is_left_as_it_was`]). The list is of what may change: a set of a driven channel touches, though
//! the driver's number is taken, and so does a set to the number that is there. An operation that the edit removes may be in it.
//!
//! Three things aren't in the list: operations that are new after the edit, those that have other in-links, and what follows
//! along links from those that are touched. The caller compares the links, and flushes.
//!
//! [`keeps_links`] says by the scene before an edit that it leaves all operations, in-links and cuts as they are
//! ([`laws::an_edit_may_keep_all_links`]), so that nothing is compared. It leaves the shape of the scene, too
//! ([`laws::an_edit_may_keep_the_shape`]): the paths of curves, bones at rest, drivers, and how many poses and modifiers there are.
//!
//! - `SetValue`, `SetKey`, `DeleteKey`, `SetFlag` and `MovePoint` keep all links.
//! - `SetLayerKey` does where the layer has a key already, and `DeleteLayerKey` where it has two: only a layer with keys needs the time.
//! - All other edits may change links.
//!
//! Nothing here tests whether an edit is accepted, applies one, or evaluates. Names are searched for in their lists from the start.
//! `SetValue` walks over all drivers as well, an edit of a key over all pencils and objects, and one of `hidden` over all objects.
//! [`keeps_links`] takes no memory, and looks up nothing but the layer whose keys are edited.
#![tactic(auto)]

mod animation;
mod channel;
mod edit;
pub mod examples;
mod find;
mod keeps;
pub mod laws;
mod object;
mod pencil;

pub use edit::touch;
pub use keeps::keeps_links;
