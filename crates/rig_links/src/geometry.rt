//! Links of the operations of a pencil object's geometry: its start, its modifiers and its end.
ghost use Rattle.std.specs.Prelude.{◌≡◌, ◌+◌, ◌<◌, ◌^◌, ◌++◌, [], ◌∷◌, length, map, slice_get, Some, OnOk, option_map, option_and_then};
ghost use Rattle.std.specs.List.{flat_map, range_with_len};
ghost use Rattle.std.specs.Option.{option_map_or};
ghost use Rattle.rig_scene.specs.declared.object.Kind.TheVariants as kind;
ghost use Rattle.rig_scene.specs.declared.operation.OpId.TheVariants.{World, Geometry, ModifierOp, GeometryDone};
ghost use Rattle.rig_scene.specs.Operations.{last_geometry};
ghost use Rattle.rig_scene.specs.Quantities.{modifiers_of};
ghost use Rattle.rig_scene.specs.Scene.{object_of};
ghost use Rattle.rig_links.specs.Numbers.{number_of, numbered_links};
ghost use Rattle.rig_links.specs.Parts.{inner, reference, of_geometry, of_effect};

use crate::numbered::NumberedScene;
use rig_cut::Link;
use rig_io::NoMemory;
use rig_scene::{Effect, Modifier, ObjectId, OpId};

/// Adds the links of the geometry of a pencil object, of its modifiers and of the end of its geometry.
pub(crate) fn push_pencil_object(
    links: &mut Vec<Link>,
    scene: &NumberedScene,
    object: ObjectId,
    pencil: u32,
    modifiers: &[Modifier],
) -> Result<(), NoMemory>
    requires kind { option_map (λ o. o.kind) (object_of scene.now object) ≡ Some (kind.Pencil pencil modifiers.now) }
    requires pencil { pencil < length scene.now.pencils }
    requires few { length modifiers.now < 2 ^ 32 }
    ensures { OnOk result (links.new.items ≡ links.old.items ++ flat_map (numbered_links scene.now)
        (Geometry object ∷ (map (ModifierOp object) (range_with_len 1 (length modifiers.now)) ++ GeometryDone object ∷ []))) }
{
    let layers = scene.pencil(pencil).layers.len() as u32;
    push_geometry(links, scene, object, pencil, layers)?;
    push_modifiers(links, scene, object, modifiers)?;
    push_geometry_done(links, scene, object, modifiers.len() as u32)
}

fn push_geometry(
    links: &mut Vec<Link>,
    scene: &NumberedScene,
    object: ObjectId,
    pencil: u32,
    layers: u32,
) -> Result<(), NoMemory>
    ensures { OnOk result (links.new.items ≡
        links.old.items ++ of_geometry scene.now (number_of scene.now (Geometry object)) pencil layers) }
{
    let reader = scene.number(&OpId::Geometry(object));
    for layer in 0..layers {
        scene.push(links, reader, false, &OpId::Layer(pencil, layer))?;
    }
    Ok(())
}

fn push_modifiers(
    links: &mut Vec<Link>,
    scene: &NumberedScene,
    object: ObjectId,
    modifiers: &[Modifier],
) -> Result<(), NoMemory>
    requires modifiers { option_map (λ o. modifiers_of o.kind) (object_of scene.now object) ≡ Some modifiers.now }
    requires few { length modifiers.now < 2 ^ 32 }
    ensures { OnOk result (links.new.items ≡
        links.old.items ++ flat_map (λ i. numbered_links scene.now (ModifierOp object i)) (range_with_len 1 (length modifiers.now))) }
{
    for (before, modifier) in modifiers.iter().enumerate() {
        push_modifier(links, scene, object, before as u32, modifier)?;
    }
    Ok(())
}

// The modifier behind so many others.
fn push_modifier(
    links: &mut Vec<Link>,
    scene: &NumberedScene,
    object: ObjectId,
    before: u32,
    modifier: &Modifier,
) -> Result<(), NoMemory>
    requires modifier { option_and_then (λ o. slice_get (modifiers_of o.kind) before) (object_of scene.now object) ≡ Some modifier.now }
    requires few { before + 1 < 2 ^ 32 }
    ensures { OnOk result (links.new.items ≡ links.old.items ++ numbered_links scene.now (ModifierOp object (before + 1))) }
{
    let reader = scene.number(&OpId::ModifierOp(object, before + 1));
    scene.push(links, reader, false, &last_geometry(object, before))?;
    push_effect(links, scene, reader, object, &modifier.effect)
}

fn push_effect(
    links: &mut Vec<Link>,
    scene: &NumberedScene,
    reader: u32,
    object: ObjectId,
    effect: &Effect,
) -> Result<(), NoMemory>
    ensures { OnOk result (links.new.items ≡ links.old.items ++ of_effect scene.now reader object effect.now) }
{
    match effect {
        Effect::Mirror(mirror) => push_centre(links, scene, reader, object, mirror.centre),
        Effect::Offset { .. } | Effect::Array { .. } => Ok(()),
    }
}

// What a mirror with a centre needs.
fn push_centre(
    links: &mut Vec<Link>,
    scene: &NumberedScene,
    reader: u32,
    object: ObjectId,
    centre: Option<ObjectId>,
) -> Result<(), NoMemory>
    ensures { OnOk result (links.new.items ≡ links.old.items ++
        option_map_or (λ c. inner scene.now reader (World object) ∷ reference scene.now reader (World c) ∷ []) centre []) }
{
    if let Some(centre) = centre {
        scene.push(links, reader, false, &OpId::World(object))?;
        scene.push(links, reader, true, &OpId::World(centre))?;
    }
    Ok(())
}

// The end of an object's geometry behind so many modifiers.
fn push_geometry_done(
    links: &mut Vec<Link>,
    scene: &NumberedScene,
    object: ObjectId,
    modifiers: u32,
) -> Result<(), NoMemory>
    requires { option_map (λ o. length (modifiers_of o.kind)) (object_of scene.now object) ≡ Some modifiers }
    ensures { OnOk result (links.new.items ≡ links.old.items ++ numbered_links scene.now (GeometryDone object)) }
{
    let reader = scene.number(&OpId::GeometryDone(object));
    scene.push(links, reader, false, &last_geometry(object, modifiers))
}

// The last of so many modifiers, or the geometry before them.
fn last_geometry(object: ObjectId, modifiers: u32) -> OpId
    ensures { result ≡ last_geometry object modifiers }
{
    if modifiers == 0 {
        OpId::Geometry(object)
    } else {
        OpId::ModifierOp(object, modifiers)
    }
}
