//! The words of quantities.
ghost use Rattle.std.specs.Prelude.{◌≡◌, ◌++◌, OnOk};
ghost use Rattle.rig_text.specs.Quantity.{id_words, path_words, channel_words, quantity_words};

use crate::names::{bone_name, layer_name, object_name, pencil_name};
use crate::number::push_number;
use rig_io::NoMemory;
use rig_scene::{AnimId, Path, Quantity, Scene};

/// Adds the words of a quantity, with the names that the scene has for it.
pub(crate) fn push_quantity(
    text: &mut Vec<u8>,
    scene: &Scene,
    quantity: &Quantity,
) -> Result<(), NoMemory>
    ensures { OnOk result (text.new.items ≡ text.old.items ++ quantity_words scene.now quantity.now) }
{
    match quantity {
        Quantity::Chan(id, path) => push_channel(text, scene, *id, path),
        Quantity::Local(id) => push_named(text, b"local ", object_name(scene, *id)),
        Quantity::World(id) => push_named(text, b"world ", object_name(scene, *id)),
        Quantity::Bone(id, bone) => {
            push_named(text, b"bone ", object_name(scene, *id))?;
            push_named(text, b" ", bone_name(scene, *id, *bone))
        }
        Quantity::Layer(pencil, layer) => {
            push_named(text, b"layer ", pencil_name(scene, *pencil))?;
            push_named(text, b" ", layer_name(scene, *pencil, *layer))
        }
        Quantity::Geom(id, count) => {
            push_named(text, b"geometry ", object_name(scene, *id))?;
            text.extend_from_slice(b" ")?;
            push_number(text, *count)
        }
    }
}

fn push_channel(text: &mut Vec<u8>, scene: &Scene, id: AnimId, path: &Path) -> Result<(), NoMemory>
    ensures { OnOk result (text.new.items ≡ text.old.items ++ channel_words scene.now id path.now) }
{
    text.extend_from_slice(b"channel ")?;
    push_id(text, scene, id)?;
    text.extend_from_slice(b" ")?;
    push_path(text, path)
}

fn push_id(text: &mut Vec<u8>, scene: &Scene, id: AnimId) -> Result<(), NoMemory>
    ensures { OnOk result (text.new.items ≡ text.old.items ++ id_words scene.now id) }
{
    match id {
        AnimId::Object(object) => push_named(text, b"object ", object_name(scene, object)),
        AnimId::Pencil(pencil) => push_named(text, b"pencil ", pencil_name(scene, pencil)),
    }
}

fn push_path(text: &mut Vec<u8>, path: &Path) -> Result<(), NoMemory>
    ensures { OnOk result (text.new.items ≡ text.old.items ++ path_words path.now) }
{
    match path {
        Path::Own(channel) => text.extend_from_slice(channel.word().as_bytes())?,
        Path::Bone(bone, channel) => {
            push_named(text, b"bone ", bone.as_str().as_bytes())?;
            push_named(text, b" ", channel.word().as_bytes())?;
        }
        Path::Layer(layer, axis) => {
            push_named(text, b"layer ", layer.as_str().as_bytes())?;
            push_named(text, b" ", axis.word().as_bytes())?;
        }
    }
    Ok(())
}

fn push_named(text: &mut Vec<u8>, word: &[u8], name: &[u8]) -> Result<(), NoMemory>
    ensures { OnOk result (text.new.items ≡ text.old.items ++ word.now ++ name.now) }
{
    text.extend_from_slice(word)?;
    text.extend_from_slice(name)?;
    Ok(())
}
