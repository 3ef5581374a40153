//! Links of the layers of pencils.
ghost use Rattle.std.specs.Prelude.{◌≡◌, ◌<◌, ◌^◌, ◌++◌, [], ◌∷◌, length, slice_get, Some, OnOk, option_map, option_and_then};
ghost use Rattle.std.specs.List.{flat_map, range_with_len};
ghost use Rattle.std.specs.Option.{option_map_or};
ghost use Rattle.rig_nodes.specs.Drivers.{driver_indices};
ghost use Rattle.rig_scene.specs.declared.id.AnimId.TheVariants as anim;
ghost use Rattle.rig_scene.specs.declared.operation.OpId.TheVariants.{Bone, Layer as LayerOp};
ghost use Rattle.rig_links.specs.Numbers.{numbered_links};
ghost use Rattle.rig_links.specs.Parts.{reference, of_keys};

use crate::driven::push_offsets;
use crate::numbered::NumberedScene;
use rig_cut::Link;
use rig_io::NoMemory;
use rig_scene::{AnimId, BoneRef, Layer, OpId};

/// Adds the links of all layers of a pencil. `row` has the indices of the pencil's drivers.
pub(crate) fn push_layers(
    links: &mut Vec<Link>,
    scene: &NumberedScene,
    pencil: u32,
    layers: &[Layer],
    row: &[u32],
) -> Result<(), NoMemory>
    requires layers { option_map (λ p. p.layers) (slice_get scene.now.pencils pencil) ≡ Some layers.now }
    requires few { length layers.now < 2 ^ 32 }
    requires row { row.now ≡ driver_indices scene.now (anim.Pencil pencil) }
    ensures { OnOk result (links.new.items ≡
        links.old.items ++ flat_map (λ l. numbered_links scene.now (LayerOp pencil l)) (range_with_len 0 (length layers.now))) }
{
    for (l, layer) in layers.iter().enumerate() {
        push_layer(links, scene, pencil, l as u32, layer, row)?;
    }
    Ok(())
}

fn push_layer(
    links: &mut Vec<Link>,
    scene: &NumberedScene,
    pencil: u32,
    l: u32,
    layer: &Layer,
    row: &[u32],
) -> Result<(), NoMemory>
    requires layer { option_and_then (λ p. slice_get p.layers l) (slice_get scene.now.pencils pencil) ≡ Some layer.now }
    requires row { row.now ≡ driver_indices scene.now (anim.Pencil pencil) }
    ensures { OnOk result (links.new.items ≡ links.old.items ++ numbered_links scene.now (LayerOp pencil l)) }
{
    let reader = scene.number(&OpId::Layer(pencil, l));
    push_time(links, scene, reader, layer.keys.len())?;
    scene.push_if_there(links, reader, &OpId::Animation(AnimId::Pencil(pencil)))?;
    push_offsets(links, scene, reader, pencil, &layer.name, row)?;
    push_bound(links, scene, reader, layer.bound)
}

// The time, for a layer with keys.
fn push_time(
    links: &mut Vec<Link>,
    scene: &NumberedScene,
    reader: u32,
    keys: usize,
) -> Result<(), NoMemory>
    ensures { OnOk result (links.new.items ≡ links.old.items ++ of_keys scene.now reader keys) }
{
    if keys == 0 {
        return Ok(());
    }
    scene.push(links, reader, false, &OpId::Time)
}

fn push_bound(
    links: &mut Vec<Link>,
    scene: &NumberedScene,
    reader: u32,
    bound: Option<BoneRef>,
) -> Result<(), NoMemory>
    ensures { OnOk result (links.new.items ≡
        links.old.items ++ option_map_or (λ b. reference scene.now reader (Bone b.object b.bone) ∷ []) bound []) }
{
    if let Some(bound) = bound {
        scene.push(links, reader, true, &OpId::Bone(bound.object, bound.bone))?;
    }
    Ok(())
}
