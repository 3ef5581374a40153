//! Links of the operations of a pose: its start, its bones and its end. Their numbers follow one another, so that of the start alone
//! is looked up.
ghost use Rattle.std.specs.Prelude.{◌≡◌, ◌+◌, ◌<◌, ◌^◌, ◌++◌, [], ◌∷◌, length, map, Some, IsTrue, IfSome, OnOk, option_map};
ghost use Rattle.std.specs.List.{flat_map, range_with_len};
ghost use Rattle.std.specs.Option.{option_map_or};
ghost use Rattle.rig_nodes.specs.Drivers.{driver_indices};
ghost use Rattle.rig_scene.specs.declared.id.AnimId.TheVariants as anim;
ghost use Rattle.rig_scene.specs.declared.operation.OpId.TheVariants.{PoseInit, Bone, PoseDone};
ghost use Rattle.rig_scene.specs.Scene.{object_of};
ghost use Rattle.rig_scene.specs.WellFormed.{is_scene, bones_of, pose_count};
ghost use Rattle.rig_links.specs.Numbers.{number_of, numbered_links, between, IsPoseFrom};

use crate::driven::push_bone_channels;
use crate::numbered::NumberedScene;
use rig_cut::Link;
use rig_io::NoMemory;
use rig_scene::{AnimId, ArmatureData, ObjectId, OpId, RestBone};

/// Adds the links of the start of an armature object's pose, of its bones and of the end of its pose. `row` has the indices
/// of the object's drivers.
pub(crate) fn push_pose(
    links: &mut Vec<Link>,
    scene: &NumberedScene,
    object: ObjectId,
    armature: &ArmatureData,
    row: &[u32],
) -> Result<(), NoMemory>
    requires scene { IsTrue (is_scene scene.now) }
    requires bones { bones_of scene.now object ≡ Some armature.now.bones }
    requires pose { option_map (λ o. pose_count o.kind) (object_of scene.now object) ≡ Some (length armature.now.bones) }
    requires few { length armature.now.bones < 2 ^ 32 }
    requires row { row.now ≡ driver_indices scene.now (anim.Object object) }
    ensures { OnOk result (links.new.items ≡ links.old.items ++ flat_map (numbered_links scene.now)
        (PoseInit object ∷ (map (Bone object) (range_with_len 0 (length armature.now.bones)) ++ PoseDone object ∷ []))) }
{
    let bones = armature.bones.as_slice();
    let start = pose_start(scene, object, bones);
    push_pose_init(links, scene, object, start)?;
    push_bones(links, scene, object, start, bones, row)?;
    push_pose_done(links, start, bones.len() as u32)
}

/// The number of the start of an armature object's pose.
fn pose_start(scene: &NumberedScene, object: ObjectId, bones: &[RestBone]) -> u32
    requires scene { IsTrue (is_scene scene.now) }
    requires bones { bones_of scene.now object ≡ Some bones.now }
    requires pose { option_map (λ o. pose_count o.kind) (object_of scene.now object) ≡ Some (length bones.now) }
    ensures { IsPoseFrom scene.now object result (length bones.now) }
{
    scene.number(&OpId::PoseInit(object))
}

fn push_pose_init(
    links: &mut Vec<Link>,
    scene: &NumberedScene,
    object: ObjectId,
    start: u32,
) -> Result<(), NoMemory>
    requires { number_of scene.now (PoseInit object) ≡ start }
    ensures { OnOk result (links.new.items ≡ links.old.items ++ numbered_links scene.now (PoseInit object)) }
{
    scene.push_if_there(links, start, &OpId::Animation(AnimId::Object(object)))
}

fn push_bones(
    links: &mut Vec<Link>,
    scene: &NumberedScene,
    object: ObjectId,
    start: u32,
    bones: &[RestBone],
    row: &[u32],
) -> Result<(), NoMemory>
    requires scene { IsTrue (is_scene scene.now) }
    requires numbers { IsPoseFrom scene.now object start (length bones.now) }
    requires bones { bones_of scene.now object ≡ Some bones.now }
    requires few { length bones.now < 2 ^ 32 }
    requires row { row.now ≡ driver_indices scene.now (anim.Object object) }
    ensures { OnOk result (links.new.items ≡
        links.old.items ++ flat_map (λ b. numbered_links scene.now (Bone object b)) (range_with_len 0 (length bones.now))) }
{
    for b in 0..bones.len() as u32 {
        push_bone(links, scene, object, start, bones, b, row)?;
    }
    Ok(())
}

fn push_bone(
    links: &mut Vec<Link>,
    scene: &NumberedScene,
    object: ObjectId,
    start: u32,
    bones: &[RestBone],
    b: u32,
    row: &[u32],
) -> Result<(), NoMemory>
    requires scene { IsTrue (is_scene scene.now) }
    requires numbers { IsPoseFrom scene.now object start (length bones.now) }
    requires bones { bones_of scene.now object ≡ Some bones.now }
    requires bone { b < length bones.now }
    requires row { row.now ≡ driver_indices scene.now (anim.Object object) }
    ensures { OnOk result (links.new.items ≡ links.old.items ++ numbered_links scene.now (Bone object b)) }
{
    let bone = &bones[b as usize];
    let reader = start + 1 + b;
    push_between(links, reader, start)?;
    push_bone_channels(links, scene, reader, object, &bone.name, row)?;
    push_parent_bone(links, reader, start, bone.parent)
}

/// Adds a link to the operation of a number that is never cut.
fn push_between(links: &mut Vec<Link>, reader: u32, source: u32) -> Result<(), NoMemory>
    ensures { OnOk result (links.new.items ≡ links.old.items ++ between reader source ∷ []) }
{
    links.push(Link {
        source,
        reader,
        reference: false,
    })?;
    Ok(())
}

fn push_parent_bone(
    links: &mut Vec<Link>,
    reader: u32,
    start: u32,
    parent: Option<u32>,
) -> Result<(), NoMemory>
    requires { IfSome parent (λ b. start + 1 + b < 2 ^ 32) }
    ensures { OnOk result (links.new.items ≡
        links.old.items ++ option_map_or (λ b. between reader (start + 1 + b) ∷ []) parent []) }
{
    if let Some(bone) = parent {
        push_between(links, reader, start + 1 + bone)?;
    }
    Ok(())
}

fn push_pose_done(links: &mut Vec<Link>, start: u32, bones: u32) -> Result<(), NoMemory>
    requires { start + 1 + bones < 2 ^ 32 }
    ensures { OnOk result (links.new.items ≡
        links.old.items ++ map (λ b. between (start + 1 + bones) (start + 1 + b)) (range_with_len 0 bones)) }
{
    let reader = start + 1 + bones;
    for bone in 0..bones {
        push_between(links, reader, start + 1 + bone)?;
    }
    Ok(())
}
