//! Links to the drivers of channels that are driven. Where an id has no drivers, none of its channels is looked up.
ghost use Rattle.std.specs.Prelude.{◌≡◌, ◌++◌, map, OnOk};
ghost use Rattle.rig_nodes.specs.Drivers.{driver_indices};
ghost use Rattle.rig_scene.specs.declared.id.AnimId.TheVariants as anim;
ghost use Rattle.rig_scene.specs.declared.path.Path.TheVariants as path;
ghost use Rattle.rig_scene.specs.Channel.{channels, axes};
ghost use Rattle.rig_links.specs.Parts.{driven};

use crate::numbered::NumberedScene;
use rig_cut::Link;
use rig_io::NoMemory;
use rig_scene::{AnimId, Axis, Channel, Name, ObjectId, OpId, Path};

/// Adds links to the drivers of an object's own channels. `row` has the indices of the object's drivers.
pub(crate) fn push_own_channels(
    links: &mut Vec<Link>,
    scene: &NumberedScene,
    reader: u32,
    object: ObjectId,
    row: &[u32],
) -> Result<(), NoMemory>
    requires { row.now ≡ driver_indices scene.now (anim.Object object) }
    ensures { OnOk result (links.new.items ≡
        links.old.items ++ driven scene.now reader (anim.Object object) (map path.Own channels)) }
{
    if row.is_empty() {
        return Ok(());
    }
    for channel in Channel::all() {
        let driver = OpId::Driver(AnimId::Object(object), Path::Own(channel));
        scene.push_if_there(links, reader, &driver)?;
    }
    Ok(())
}

/// Adds links to the drivers of the channels of an object's bone of a name. `row` has the indices of the object's drivers.
pub(crate) fn push_bone_channels(
    links: &mut Vec<Link>,
    scene: &NumberedScene,
    reader: u32,
    object: ObjectId,
    bone: &Name,
    row: &[u32],
) -> Result<(), NoMemory>
    requires { row.now ≡ driver_indices scene.now (anim.Object object) }
    ensures { OnOk result (links.new.items ≡
        links.old.items ++ driven scene.now reader (anim.Object object) (map (path.Bone bone.now) channels)) }
{
    if row.is_empty() {
        return Ok(());
    }
    for channel in Channel::all() {
        let driver = OpId::Driver(AnimId::Object(object), Path::Bone(bone.copy()?, channel));
        scene.push_if_there(links, reader, &driver)?;
    }
    Ok(())
}

/// Adds links to the drivers of the offset of a pencil's layer of a name. `row` has the indices of the pencil's drivers.
pub(crate) fn push_offsets(
    links: &mut Vec<Link>,
    scene: &NumberedScene,
    reader: u32,
    pencil: u32,
    layer: &Name,
    row: &[u32],
) -> Result<(), NoMemory>
    requires { row.now ≡ driver_indices scene.now (anim.Pencil pencil) }
    ensures { OnOk result (links.new.items ≡
        links.old.items ++ driven scene.now reader (anim.Pencil pencil) (map (path.Layer layer.now) axes)) }
{
    if row.is_empty() {
        return Ok(());
    }
    for axis in Axis::all() {
        let driver = OpId::Driver(AnimId::Pencil(pencil), Path::Layer(layer.copy()?, axis));
        scene.push_if_there(links, reader, &driver)?;
    }
    Ok(())
}
