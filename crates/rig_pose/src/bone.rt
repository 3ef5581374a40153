//! Transforms of bones, in the space of their armature.
ghost use Rattle.std.specs.Prelude.{◌≡◌, ℕ, ◌<◌, length, IsTrue};
ghost use Rattle.std.specs.Option.{option_copied};
ghost use Rattle.rig_fixed.specs.Transform.{compose};
ghost use Rattle.rig_scene.specs.Pose.{carried_by, rest_through, rest_chain, deform_of};
ghost use Rattle.rig_scene.specs.Facts.{have_earlier_parents};

use crate::object::{local_of, world_of};
use rig_fixed::{Xform, compose, inverse};
use rig_io::List;
use rig_scene::{ArmatureData, RestBone};

/// A bone in the space of its armature, by its parent bone there, its rest and its pose: the pose within the rest,
/// carried by the parent.
pub fn bone_of(parent: Option<&Xform>, rest: &Xform, pose: &Xform) -> Xform
    ensures { result ≡ carried_by (option_copied parent.entry) (compose rest.now pose.now) }
{
    world_of(parent, &compose(rest, pose))
}

/// Where a bone takes what is bound to it: from its rest, that of its chain, to where it stands.
pub fn deform_of(bone: &Xform, rest_chain: &Xform) -> Xform
    ensures { result ≡ deform_of bone.now rest_chain.now }
{
    compose(bone, &inverse(rest_chain))
}

/// A bone at rest in the space of its armature: its rest, carried by that of its parent.
pub fn rest_chain(armature: &ArmatureData, bone: u32) -> Xform
    requires bone { bone < length armature.now.bones }
    requires parents { IsTrue (have_earlier_parents armature.now.bones) }
    ensures { result ≡ rest_chain armature.now.bones bone }
{
    rest_of(&armature.bones, bone)
}

/// A bone at rest, through as many bones as it takes.
fn rest_of(bones: &List<RestBone>, index: u32) -> Xform
    requires index { index < length bones.now }
    requires parents { IsTrue (have_earlier_parents bones.now) }
    ensures { (depth : ℕ) → index < depth → result ≡ rest_through depth bones.now index }
{
    let bone = bones.get(index as usize);
    let local = local_of(&bone.rest);
    match bone.parent {
        Some(parent) => compose(&rest_of(bones, parent), &local),
        None => local,
    }
}
