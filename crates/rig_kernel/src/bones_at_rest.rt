//! The bones of an armature at rest, each composed once.
ghost use Rattle.std.specs.Prelude.{◌≡◌, ℕ, length, slice_get, option_map, option_and_then, IfOk, IsTrue};
ghost use Rattle.rig_scene.specs.Facts.{have_earlier_parents};
ghost use Rattle.rig_scene.specs.Pose.{transform_of, carried_by};
ghost use Rattle.rig_scene.specs.WellFormed.{is_below};
ghost use Rattle.rig_kernel.specs.Tables.{AreBonesOf};

use rig_fixed::{Xform, compose};
use rig_io::{List, NoMemory};
use rig_pose::local_of;
use rig_scene::RestBone;
use std::alloc::Global;

/// A bone at rest: its own rest, and its rest in the space of its armature.
#[derive(Clone, Copy)]
pub struct BoneAtRest {
    pub(crate) rest: Xform,
    pub(crate) chain: Xform,
}

/// The bones of an armature at rest, each composed with its parent, which is an earlier one.
pub(crate) fn bones_at_rest(alloc: Global, bones: &[RestBone]) -> Result<List<BoneAtRest>, NoMemory>
    requires { IsTrue (have_earlier_parents bones.now) }
    ensures { IfOk result (λ at_rest. AreBonesOf at_rest bones.now) }
{
    let mut at_rest: List<BoneAtRest> = List::new(alloc);
    for bone in bones {
        at_rest.push(bone_after(&at_rest, bone))?;
    }
    Ok(at_rest)
}

// The bone after others, of which one is its parent where it has one.
fn bone_after(earlier: &List<BoneAtRest>, bone: &RestBone) -> BoneAtRest
    requires { IsTrue (is_below (length earlier.now) bone.now.parent) }
    ensures rest { result.rest ≡ transform_of bone.now.rest }
    ensures chain { result.chain ≡ carried_by (option_and_then (λ p. option_map (λ b. b.chain) (slice_get earlier.now p)) bone.now.parent)
        (transform_of bone.now.rest) }
{
    let rest = local_of(&bone.rest);
    let chain = match bone.parent {
        Some(parent) => compose(&earlier.get(parent as usize).chain, &rest),
        None => rest,
    };
    BoneAtRest { rest, chain }
}
