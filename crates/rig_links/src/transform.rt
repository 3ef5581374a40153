//! Links of the local and world transforms of objects.
ghost use Rattle.std.specs.Prelude.{◌≡◌, ◌++◌, Some, OnOk};
ghost use Rattle.std.specs.Option.{option_copied};
ghost use Rattle.rig_nodes.specs.Drivers.{driver_indices};
ghost use Rattle.rig_scene.specs.declared.id.AnimId.TheVariants as anim;
ghost use Rattle.rig_scene.specs.declared.operation.OpId.TheVariants.{Local, World};
ghost use Rattle.rig_scene.specs.Scene.{object_of};
ghost use Rattle.rig_links.specs.Numbers.{numbered_links};
ghost use Rattle.rig_links.specs.Parts.{of_parent};

use crate::driven::push_own_channels;
use crate::numbered::NumberedScene;
use rig_cut::Link;
use rig_io::NoMemory;
use rig_scene::{AnimId, Object, ObjectId, OpId, Parent};

/// Adds the links of an object's local transform. `row` has the indices of the object's drivers.
pub(crate) fn push_local(
    links: &mut Vec<Link>,
    scene: &NumberedScene,
    object: ObjectId,
    row: &[u32],
) -> Result<(), NoMemory>
    requires { row.now ≡ driver_indices scene.now (anim.Object object) }
    ensures { OnOk result (links.new.items ≡ links.old.items ++ numbered_links scene.now (Local object)) }
{
    let reader = scene.number(&OpId::Local(object));
    scene.push_if_there(links, reader, &OpId::Animation(AnimId::Object(object)))?;
    push_own_channels(links, scene, reader, object, row)
}

/// Adds the links of an object's world transform.
pub(crate) fn push_world(
    links: &mut Vec<Link>,
    scene: &NumberedScene,
    object: &Object,
) -> Result<(), NoMemory>
    requires { object_of scene.now object.now.id ≡ Some object.now }
    ensures { OnOk result (links.new.items ≡ links.old.items ++ numbered_links scene.now (World object.now.id)) }
{
    let reader = scene.number(&OpId::World(object.id));
    scene.push(links, reader, false, &OpId::Local(object.id))?;
    push_parent(links, scene, reader, object.parent)
}

fn push_parent(
    links: &mut Vec<Link>,
    scene: &NumberedScene,
    reader: u32,
    parent: Option<Parent>,
) -> Result<(), NoMemory>
    ensures { OnOk result (links.new.items ≡ links.old.items ++ of_parent scene.now reader parent) }
{
    let Some(parent) = parent else {
        return Ok(());
    };
    scene.push(links, reader, true, &OpId::World(parent.object))?;
    if let Some(bone) = parent.bone {
        scene.push(links, reader, true, &OpId::Bone(parent.object, bone))?;
    }
    Ok(())
}
