//! The links of all operations of a scene, in the order of the operations that need.
ghost use Rattle.std.specs.Prelude.{◌≡◌, ◌<◌, ◌^◌, ◌++◌, length, slice_get, Some, IsTrue, IfOk, OnOk};
ghost use Rattle.std.specs.List.{flat_map, enumerate_from};
ghost use Rattle.rig_nodes.specs.Drivers.{driver_indices, driver_rows};
ghost use Rattle.rig_scene.specs.declared.id.AnimId.TheVariants as anim;
ghost use Rattle.rig_scene.specs.Operations.{animation_of, pencil_operations, kind_operations, object_operations, operations};
ghost use Rattle.rig_scene.specs.Scene.{object_of};
ghost use Rattle.rig_scene.specs.WellFormed.{is_scene};
ghost use Rattle.rig_links.specs.Numbers.{numbered_links, all_links};

use crate::driver::push_drivers;
use crate::geometry::push_pencil_object;
use crate::layer::push_layers;
use crate::numbered::NumberedScene;
use crate::pose::push_pose;
use crate::transform::{push_local, push_world};
use rig_cut::Link;
use rig_io::NoMemory;
use rig_nodes::{NodeTable, drivers_by_owner};
use rig_rows::Rows;
use rig_scene::{AnimId, Kind, Object, OpId, PencilData, Scene};
use std::alloc::Global;

/// Room is taken for this many links an operation. A bone has three with those of the end of its pose.
const LINKS_OF_MOST: usize = 3;

/// The links of all operations of a scene whose operations `nodes` numbers, before it is known which are cut. Those of each
/// operation are in order, and the operations are in the order of their numbers.
///
/// # Errors
///
/// [`NoMemory`] where memory is refused.
pub(crate) fn scene_links(
    alloc: Global,
    scene: &Scene,
    nodes: &NodeTable,
) -> Result<Vec<Link>, NoMemory>
    requires { nodes.now ≡ operations scene.now }
    ensures links { IfOk result (λ links. links.items ≡ all_links scene.now) }
    ensures met { OnOk result (IsTrue (is_scene scene.now)) }
{
    let rows = drivers_by_owner(alloc, scene)?;
    let numbered = NumberedScene::new(scene, nodes);
    let mut links = Vec::with_capacity(alloc, LINKS_OF_MOST * nodes.len() as usize)?;
    push_pencils(&mut links, &numbered, &rows)?;
    push_objects(&mut links, &numbered, &rows)?;
    Ok(links)
}

fn push_pencils(
    links: &mut Vec<Link>,
    scene: &NumberedScene,
    rows: &Rows<u32>,
) -> Result<(), NoMemory>
    requires { rows.now ≡ driver_rows scene.now }
    ensures { OnOk result (links.new.items ≡ links.old.items ++
        flat_map (λ e. flat_map (numbered_links scene.now) (pencil_operations scene.now e.0 e.1)) (enumerate_from 0 scene.now.pencils)) }
{
    for (p, pencil) in scene.pencils().iter().enumerate() {
        push_pencil(links, scene, p as u32, pencil, rows.get(p))?;
    }
    Ok(())
}

fn push_pencil(
    links: &mut Vec<Link>,
    scene: &NumberedScene,
    p: u32,
    pencil: &PencilData,
    row: &[u32],
) -> Result<(), NoMemory>
    requires pencil { slice_get scene.now.pencils p ≡ Some pencil.now }
    requires few { length pencil.now.layers < 2 ^ 32 }
    requires row { row.now ≡ driver_indices scene.now (anim.Pencil p) }
    ensures { OnOk result (links.new.items ≡
        links.old.items ++ flat_map (numbered_links scene.now) (pencil_operations scene.now p pencil.now)) }
{
    push_animation(links, scene, AnimId::Pencil(p))?;
    push_drivers(links, scene, row)?;
    push_layers(links, scene, p, pencil.layers.as_slice(), row)
}

fn push_objects(
    links: &mut Vec<Link>,
    scene: &NumberedScene,
    rows: &Rows<u32>,
) -> Result<(), NoMemory>
    requires { rows.now ≡ driver_rows scene.now }
    ensures { OnOk result (links.new.items ≡ links.old.items ++
        flat_map (λ o. flat_map (numbered_links scene.now) (object_operations scene.now o)) scene.now.objects) }
{
    let pencils = scene.pencils().len();
    for (index, object) in scene.objects().iter().enumerate() {
        push_object(links, scene, object, rows.get(pencils + index))?;
    }
    Ok(())
}

fn push_object(
    links: &mut Vec<Link>,
    scene: &NumberedScene,
    object: &Object,
    row: &[u32],
) -> Result<(), NoMemory>
    requires scene { IsTrue (is_scene scene.now) }
    requires object { object_of scene.now object.now.id ≡ Some object.now }
    requires row { row.now ≡ driver_indices scene.now (anim.Object object.now.id) }
    ensures { OnOk result (links.new.items ≡
        links.old.items ++ flat_map (numbered_links scene.now) (object_operations scene.now object.now)) }
{
    push_animation(links, scene, AnimId::Object(object.id))?;
    push_drivers(links, scene, row)?;
    push_local(links, scene, object.id, row)?;
    push_world(links, scene, object)?;
    push_kind(links, scene, object, row)
}

fn push_animation(links: &mut Vec<Link>, scene: &NumberedScene, id: AnimId) -> Result<(), NoMemory>
    ensures { OnOk result (links.new.items ≡ links.old.items ++ flat_map (numbered_links scene.now) (animation_of scene.now id)) }
{
    let Some(reader) = scene.number_if_there(&OpId::Animation(id)) else {
        return Ok(());
    };
    scene.push(links, reader, false, &OpId::Time)
}

fn push_kind(
    links: &mut Vec<Link>,
    scene: &NumberedScene,
    object: &Object,
    row: &[u32],
) -> Result<(), NoMemory>
    requires scene { IsTrue (is_scene scene.now) }
    requires object { object_of scene.now object.now.id ≡ Some object.now }
    requires row { row.now ≡ driver_indices scene.now (anim.Object object.now.id) }
    ensures { OnOk result (links.new.items ≡
        links.old.items ++ flat_map (numbered_links scene.now) (kind_operations object.now.id object.now.kind)) }
{
    match &object.kind {
        Kind::Empty => Ok(()),
        Kind::Armature { armature, .. } => {
            push_pose(links, scene, object.id, scene.armature(*armature), row)
        }
        Kind::Pencil { pencil, modifiers } => {
            push_pencil_object(links, scene, object.id, *pencil, modifiers.as_slice())
        }
    }
}
