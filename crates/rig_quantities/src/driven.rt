//! The driven ones of an object's channels, of a bone's, and of the axes of a layer's offset, as inner reads. One walk over
//! all drivers finds those of an object, a bone or a layer.
ghost use Rattle.std.specs.Prelude.{◌≡◌, ◌++◌, ◌∷◌, [], map, IfOk, OnOk, if◌then◌else◌};
ghost use Rattle.std.specs.List.{filter_map, list_any};
ghost use Rattle.std.specs.Option.{option_copied};
ghost use Rattle.rig_scene.specs.declared.id.AnimId.TheVariants as anim;
ghost use Rattle.rig_scene.specs.declared.path.Path.TheVariants as path;
ghost use Rattle.rig_scene.specs.declared.quantity.Quantity.TheVariants.{Chan};
ghost use Rattle.rig_scene.specs.Channel.{channels, axes, same_channel, same_axis};
ghost use Rattle.rig_scene.specs.Quantities.{driven_reads, inner_read};
ghost use Rattle.rig_quantities.specs.Part.{channel_path, channel_in, axis_in, driven_channel, driven_axis};

use rig_io::{List, NoMemory};
use rig_scene::{AnimId, Axis, Channel, Driver, Name, ObjectId, Path, Quantity, Read, Scene};
use std::alloc::{AllocError, Global};

/// The driven ones of an object's own channels, or of those of its bone of a name, in the order of the channels.
pub(crate) fn channel_reads(
    alloc: Global,
    scene: &Scene,
    id: ObjectId,
    bone: Option<&Name>,
) -> Result<List<Read>, NoMemory>
    ensures { IfOk result (λ list. list ≡ driven_reads scene.now (anim.Object id) (map (channel_path (option_copied bone.entry)) channels)) }
{
    let driven = driven_channels(alloc, scene, id, bone)?;
    let mut list = List::new(alloc);
    for channel in Channel::all() {
        add_channel(&mut list, driven.as_slice(), id, bone, channel)?;
    }
    Ok(list)
}

/// The driven ones of the axes of a layer's offset, in the order of the axes.
pub(crate) fn axis_reads(
    alloc: Global,
    scene: &Scene,
    pencil: u32,
    layer: &Name,
) -> Result<List<Read>, NoMemory>
    ensures { IfOk result (λ list. list ≡ driven_reads scene.now (anim.Pencil pencil) (map (path.Layer layer.now) axes)) }
{
    let driven = driven_axes(alloc, scene, pencil, layer)?;
    let mut list = List::new(alloc);
    for axis in Axis::all() {
        add_axis(&mut list, driven.as_slice(), pencil, layer, axis)?;
    }
    Ok(list)
}

// Adds the read of a channel, if it is among the driven ones.
fn add_channel(
    list: &mut List<Read>,
    driven: &[Channel],
    id: ObjectId,
    bone: Option<&Name>,
    channel: Channel,
) -> Result<(), NoMemory>
    ensures { OnOk result (list.new ≡ list.old ++ (if list_any (λ c. same_channel c channel) driven.now
        then inner_read (Chan (anim.Object id) (channel_path (option_copied bone.entry) channel)) ∷ [] else [])) }
{
    if has_channel(driven, channel) {
        list.push(driven_read(AnimId::Object(id), channel_path(bone, channel)?))
    } else {
        Ok(())
    }
}

// Adds the read of an axis, if it is among the driven ones.
fn add_axis(
    list: &mut List<Read>,
    driven: &[Axis],
    pencil: u32,
    layer: &Name,
    axis: Axis,
) -> Result<(), NoMemory>
    ensures { OnOk result (list.new ≡ list.old ++ (if list_any (λ a. same_axis a axis) driven.now
        then inner_read (Chan (anim.Pencil pencil) (path.Layer layer.now axis)) ∷ [] else [])) }
{
    if has_axis(driven, axis) {
        list.push(driven_read(AnimId::Pencil(pencil), Path::Layer(layer.copy()?, axis)))
    } else {
        Ok(())
    }
}

fn driven_read(id: AnimId, path: Path) -> Read
    ensures { result ≡ inner_read (Chan id path) }
{
    Read {
        source: Quantity::Chan(id, path),
        reference: false,
    }
}

fn channel_path(bone: Option<&Name>, channel: Channel) -> Result<Path, NoMemory>
    ensures { IfOk result (λ path. path ≡ channel_path (option_copied bone.entry) channel) }
{
    match bone {
        None => Ok(Path::Own(channel)),
        Some(name) => Ok(Path::Bone(name.copy()?, channel)),
    }
}

// The driven channels, in the order of their drivers.
fn driven_channels(
    alloc: Global,
    scene: &Scene,
    id: ObjectId,
    bone: Option<&Name>,
) -> Result<Vec<Channel>, AllocError>
    ensures { IfOk result (λ found. found.items ≡ filter_map (driven_channel id (option_copied bone.entry)) scene.now.drivers) }
{
    scene
        .drivers
        .as_slice()
        .iter()
        .filter_map(|driver| driven_channel(driver, id, bone))
        .collect(alloc)
}

fn driven_channel(driver: &Driver, id: ObjectId, bone: Option<&Name>) -> Option<Channel>
    ensures { result ≡ driven_channel id (option_copied bone.entry) driver.now }
{
    if driver.id == AnimId::Object(id) {
        channel_in(&driver.path, bone)
    } else {
        None
    }
}

fn channel_in(path: &Path, bone: Option<&Name>) -> Option<Channel>
    ensures { result ≡ channel_in (option_copied bone.entry) path.now }
{
    match (bone, path) {
        (None, Path::Own(channel)) => Some(*channel),
        (Some(bone), Path::Bone(name, channel)) if *name == *bone => Some(*channel),
        _ => None,
    }
}

// The driven axes, in the order of their drivers.
fn driven_axes(
    alloc: Global,
    scene: &Scene,
    pencil: u32,
    layer: &Name,
) -> Result<Vec<Axis>, AllocError>
    ensures { IfOk result (λ found. found.items ≡ filter_map (driven_axis pencil layer.now) scene.now.drivers) }
{
    scene
        .drivers
        .as_slice()
        .iter()
        .filter_map(|driver| driven_axis(driver, pencil, layer))
        .collect(alloc)
}

fn driven_axis(driver: &Driver, pencil: u32, layer: &Name) -> Option<Axis>
    ensures { result ≡ driven_axis pencil layer.now driver.now }
{
    if driver.id == AnimId::Pencil(pencil) {
        axis_in(&driver.path, layer)
    } else {
        None
    }
}

fn axis_in(path: &Path, layer: &Name) -> Option<Axis>
    ensures { result ≡ axis_in layer.now path.now }
{
    match path {
        Path::Layer(name, axis) if *name == *layer => Some(*axis),
        _ => None,
    }
}

fn has_channel(channels: &[Channel], channel: Channel) -> bool
    ensures { result ≡ list_any (λ c. same_channel c channel) channels.now }
{
    channels.iter().any(|other| *other == channel)
}

fn has_axis(axes: &[Axis], axis: Axis) -> bool
    ensures { result ≡ list_any (λ a. same_axis a axis) axes.now }
{
    axes.iter().any(|other| *other == axis)
}
