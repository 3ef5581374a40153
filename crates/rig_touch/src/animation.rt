//! The animations of an action.
ghost use Rattle.std.specs.Prelude.{◌≡◌, ◌<◌, ◌^◌, ◌++◌, [], length, map, filter, IfOk, OnOk};
ghost use Rattle.std.specs.List.{enumerate_from};
ghost use Rattle.rig_scene.specs.declared.id.AnimId.TheVariants as anim;
ghost use Rattle.rig_scene.specs.declared.operation.OpId.TheVariants as op;
ghost use Rattle.rig_touch.specs.Touch.{animations_of, animations_named, uses_action};

use crate::find::{action_index, pencils};
use rig_io::{List, NoMemory};
use rig_scene::{AnimId, Name, Object, OpId, PencilData, Scene};
use std::alloc::Global;

/// The animations of the pencils and objects that use the action of a name.
pub(crate) fn of_action(alloc: Global, scene: &Scene, action: &Name) -> Result<List<OpId>, NoMemory>
    ensures { IfOk result (λ ops. ops ≡ animations_named scene.now action.now) }
{
    match action_index(scene, action) {
        Some(action) => animations_of(alloc, scene, action),
        None => Ok(List::new(alloc)),
    }
}

fn animations_of(alloc: Global, scene: &Scene, action: u32) -> Result<List<OpId>, NoMemory>
    ensures { IfOk result (λ ops. ops ≡ animations_of scene.now action) }
{
    let mut ops = List::new(alloc);
    push_pencils(&mut ops, pencils(scene), action)?;
    push_objects(&mut ops, scene.objects.as_slice(), action)?;
    Ok(ops)
}

fn push_pencils(ops: &mut List<OpId>, pencils: &[PencilData], action: u32) -> Result<(), NoMemory>
    requires { length pencils.now < 2 ^ 32 }
    ensures { OnOk result (ops.new ≡ ops.old ++
        map (λ e. op.Animation (anim.Pencil e.0)) (filter (λ e. uses_action action e.1.action) (enumerate_from 0 pencils.now))) }
{
    for (p, pencil) in pencils.iter().enumerate() {
        if is_used(action, pencil.action) {
            ops.push(OpId::Animation(AnimId::Pencil(p as u32)))?;
        }
    }
    Ok(())
}

fn push_objects(ops: &mut List<OpId>, objects: &[Object], action: u32) -> Result<(), NoMemory>
    ensures { OnOk result (ops.new ≡ ops.old ++
        map (λ o. op.Animation (anim.Object o.id)) (filter (λ o. uses_action action o.action) objects.now)) }
{
    for object in objects {
        if is_used(action, object.action) {
            ops.push(OpId::Animation(AnimId::Object(object.id)))?;
        }
    }
    Ok(())
}

fn is_used(action: u32, of: Option<u32>) -> bool
    ensures { result ≡ uses_action action of }
{
    match of {
        Some(index) => index == action,
        None => false,
    }
}
