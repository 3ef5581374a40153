//! The operations that each kind of edit touches.
ghost use Rattle.std.specs.Prelude.{◌≡◌, Bool, IfOk};
ghost use Rattle.rig_edits.specs.declared.edit.Edit.TheVariants.{SetFlag};
ghost use Rattle.rig_touch.specs.Touch.{touch};

use crate::animation::of_action;
use crate::channel::of_value;
use crate::object::{driver, modifier, modifiers_from, world};
use crate::pencil::{drawing_layers, geometries, layer};
use rig_edits::{Edit, Flag};
use rig_io::{List, NoMemory};
use rig_scene::{OpId, Scene};
use std::alloc::Global;

/// The operations that an edit touches, by the scene before it: those whose value it can change by itself while their in-links stay
/// the same. Operations that are new or have other in-links afterwards aren't among them, and what only follows along links isn't.
/// One that the edit removes may be among them. Names that mean nothing touch nothing.
///
/// # Errors
///
/// [`NoMemory`] where memory is refused.
#[tactic(auto, unfolding(crate::specs::Touch::touch))]
pub fn touch(alloc: Global, before: &Scene, edit: &Edit) -> Result<List<OpId>, NoMemory>
    ensures { IfOk result (λ ops. ops ≡ touch before.now edit.now) }
{
    match edit {
        Edit::SetValue { id, path, .. } => of_value(alloc, before, id, path),
        Edit::SetKey { action, .. } | Edit::DeleteKey { action, .. } => {
            of_action(alloc, before, action)
        }
        Edit::SetFlag { flag, .. } => of_flag(alloc, before, flag),
        Edit::MovePoint {
            pencil,
            drawing,
            ..
        } => drawing_layers(alloc, before, pencil, *drawing),
        Edit::SetLayerKey {
            pencil,
            layer: of,
            ..
        }
        | Edit::DeleteLayerKey {
            pencil,
            layer: of,
            ..
        } => layer(alloc, before, pencil, of),
        Edit::SetParent { object, .. } => world(alloc, before, object),
        Edit::SetDriver { id, path, .. } => driver(alloc, before, id, path),
        Edit::RemoveModifier {
            object,
            modifier: removed,
        } => modifiers_from(alloc, before, object, removed),
        Edit::ClearDriver { .. }
        | Edit::AddObject { .. }
        | Edit::RemoveObject { .. }
        | Edit::AddModifier { .. } => Ok(List::new(alloc)),
    }
}

#[tactic(auto, unfolding(crate::specs::Touch::touch))]
fn of_flag(alloc: Global, scene: &Scene, flag: &Flag) -> Result<List<OpId>, NoMemory>
    ensures { (on : Bool) → IfOk result (λ ops. ops ≡ touch scene.now (SetFlag flag.now on)) }
{
    match flag {
        Flag::Switch {
            object,
            modifier: switched,
            ..
        } => modifier(alloc, scene, object, switched),
        Flag::Hidden { pencil, .. } => geometries(alloc, scene, pencil),
    }
}
