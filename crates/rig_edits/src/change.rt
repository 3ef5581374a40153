//! Applies an edit to a scene.
ghost use Rattle.std.specs.Prelude.{◌≡◌, ◌<◌, Err, None, Some, OnErr, OnOk};
ghost use Rattle.rig_edits.specs.declared.cause.EditCause.{EditCause};
ghost use Rattle.rig_edits.specs.declared.cause.EditStop.TheVariants.{NoMemory, Refused};
ghost use Rattle.rig_edits.specs.declared.change.TheConstants.{MAX_NEXT};
ghost use Rattle.rig_edits.specs.declared.edit.Edit.TheVariants.{SetFlag};
ghost use Rattle.rig_edits.specs.Answers.{Applies};
ghost use Rattle.rig_edits.specs.Conditions.{first_cause};
ghost use Rattle.rig_edits.specs.Edited.{edited};

use crate::cause::EditStop;
use crate::curve::{delete_key, set_key};
use crate::driver::{clear_driver, set_driver};
use crate::edit::{Edit, Flag};
use crate::layer::{delete_layer_key, set_hidden, set_layer_key};
use crate::modifier::{add_modifier, remove_modifier, set_switch};
use crate::object::{add_object, remove_object};
use crate::parent::set_parent;
use crate::point::move_point;
use crate::value::set_value;
use rig_scene::Scene;
use std::alloc::Global;

/// The greatest `next` of a scene, with which no edit is applied: it is below this wherever [`apply`] is called.
pub const MAX_NEXT: u32 = u32::MAX;

/// Applies an edit to a scene, in place. Its records are found by their names, and one of them is changed, added or taken
/// out; `SEMANTICS.md` has what each edit does.
///
/// # Errors
///
/// [`EditStop::Refused`] exactly where a cause is against the edit, with the first that is, in the order of their codes.
/// [`EditStop::NoMemory`] where none is, and memory is refused. After both the scene is unchanged.
///
/// # Examples
///
/// ```text
/// apply(alloc, scene, SetValue { id: Object("Child"), path: Own(LocY), value: 3 })   Ok(()): Child's loc.y is 3
/// apply(alloc, scene, RemoveObject { object: "Root" })    Err(Refused(InUse)), where Child has Root as its parent
/// apply(alloc, scene, RemoveObject { object: "Nobody" })  Err(Refused(UnknownId))
/// ```
pub fn apply(alloc: Global, scene: &mut Scene, edit: &Edit) -> Result<(), EditStop>
    requires { scene.old.next < MAX_NEXT }
    ensures accepted { OnOk result ((first_cause scene.old edit.now ≡ None) × (scene.new ≡ edited scene.old edit.now)) }
    ensures refused { (cause : EditCause) → result ≡ Err (Refused cause) → first_cause scene.old edit.now ≡ Some cause }
    ensures memory { result ≡ Err NoMemory → first_cause scene.old edit.now ≡ None }
    ensures unchanged { OnErr result (scene.new ≡ scene.old) }
{
    change(alloc, scene, edit)
}

fn change(alloc: Global, scene: &mut Scene, edit: &Edit) -> Result<(), EditStop>
    requires { scene.old.next < MAX_NEXT }
    ensures { Applies result scene.old scene.new edit.now }
{
    match edit {
        Edit::SetValue { id, path, value } => set_value(scene, id, path, *value),
        Edit::SetKey {
            action,
            path,
            frame,
            value,
            interp,
        } => set_key(scene, action, path, *frame, *value, *interp),
        Edit::DeleteKey {
            action,
            path,
            frame,
        } => delete_key(scene, action, path, *frame),
        Edit::SetFlag { flag, on } => set_flag(scene, flag, *on),
        Edit::MovePoint {
            pencil,
            drawing,
            stroke,
            point,
            to,
        } => move_point(scene, pencil, *drawing, *stroke, *point, to),
        Edit::SetLayerKey {
            pencil,
            layer,
            frame,
            drawing,
        } => set_layer_key(scene, pencil, layer, *frame, *drawing),
        Edit::DeleteLayerKey {
            pencil,
            layer,
            frame,
        } => delete_layer_key(scene, pencil, layer, *frame),
        Edit::SetParent { object, parent } => set_parent(scene, object, parent),
        Edit::SetDriver { id, path, driver } => set_driver(alloc, scene, id, path, driver),
        Edit::ClearDriver { id, path } => clear_driver(scene, id, path),
        Edit::AddObject { name, kind } => add_object(alloc, scene, name, kind),
        Edit::RemoveObject { object } => remove_object(scene, object),
        Edit::AddModifier {
            object,
            name,
            viewport,
            render,
            effect,
        } => add_modifier(scene, object, name, *viewport, *render, effect),
        Edit::RemoveModifier { object, modifier } => remove_modifier(scene, object, modifier),
    }
}

fn set_flag(scene: &mut Scene, flag: &Flag, on: bool) -> Result<(), EditStop>
    ensures { Applies result scene.old scene.new (SetFlag flag.now on) }
{
    match flag {
        Flag::Switch {
            object,
            modifier,
            mode,
        } => set_switch(scene, object, modifier, *mode, on),
        Flag::Hidden { pencil, layer } => set_hidden(scene, pencil, layer, on),
    }
}
