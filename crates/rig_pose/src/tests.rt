//! Worked examples of transforms, in millionths.
ghost use Rattle.std.specs.Prelude.{◌≡◌, length, IsTrue, IfOk};
ghost use Rattle.rig_scene.specs.Facts.{have_earlier_parents};

use crate::{bone_of, deform_of, local_of, rest_chain, world_of};
use rig_fixed::{Fx, LIMIT, Raw, UNIT, V3, Xform};
use rig_io::List;
use rig_scene::{ArmatureData, Channels, Name, RestBone};
use std::alloc::Global;
use std::test::Fail;

/// The four numbers of no rotation.
const NO_TURN: [i64; 4] = [UNIT, 0, 0, 0];

fn point([x, y, z]: [i64; 3]) -> V3 {
    V3 {
        x: Fx::of_i64(x),
        y: Fx::of_i64(y),
        z: Fx::of_i64(z),
    }
}

fn channels(loc: [i64; 3], [w, x, y, z]: [i64; 4], scale: i64) -> Channels {
    Channels {
        loc: point(loc),
        rot: Raw {
            w: Fx::of_i64(w),
            x: Fx::of_i64(x),
            y: Fx::of_i64(y),
            z: Fx::of_i64(z),
        },
        scale: Fx::of_i64(scale),
    }
}

fn numbers(t: &Xform) -> ([i64; 3], [i64; 4], i64) {
    (
        [t.loc.x.get(), t.loc.y.get(), t.loc.z.get()],
        [t.rot.w, t.rot.x, t.rot.y, t.rot.z],
        t.scale.get(),
    )
}

#[test]
fn a_local_transform_has_a_unit_rotation_and_a_positive_scale(rt: HostRuntime) {
    for (rot, scale, unit_rotation, positive_scale) in [
        (NO_TURN, UNIT, NO_TURN, UNIT),
        ([0, 0, 0, 0], UNIT, NO_TURN, UNIT),
        (NO_TURN, 0, NO_TURN, 1),
        (NO_TURN, -5, NO_TURN, 1),
    ] {
        let local = local_of(&channels([1, 2, 3], rot, scale));
        assert_eq!(rt; numbers(&local), ([1, 2, 3], unit_rotation, positive_scale));
    }
}

#[test]
fn a_parent_carries_its_child(rt: HostRuntime) {
    let quarter = [707_107, 0, 0, 707_107];
    for (parent, child, world) in [
        (
            channels([0, 0, 0], quarter, UNIT),
            channels([UNIT, 0, 0], NO_TURN, UNIT),
            ([-1, 1_000_001, 0], quarter, UNIT),
        ),
        (
            channels([LIMIT, 0, 0], NO_TURN, UNIT),
            channels([LIMIT, 0, 0], NO_TURN, UNIT),
            ([LIMIT, 0, 0], NO_TURN, UNIT),
        ),
    ] {
        let local = local_of(&child);
        assert_eq!(rt; numbers(&world_of(Some(&local_of(&parent)), &local)), world);
        assert_eq!(rt; numbers(&world_of(None, &local)), numbers(&local));
    }
}

fn bone(alloc: Global, name: &[u8], parent: Option<u32>) -> Result<RestBone, Fail>
    ensures { IfOk result (λ b. b.parent ≡ parent) }
{
    let name = Name::of(alloc, name)?;
    Ok(RestBone {
        name,
        parent,
        rest: channels([0, UNIT, 0], NO_TURN, UNIT),
    })
}

fn two_bones(alloc: Global) -> Result<ArmatureData, Fail>
    ensures number { IfOk result (λ a. length a.bones ≡ 2) }
    ensures parents { IfOk result (λ a. IsTrue (have_earlier_parents a.bones)) }
{
    let upper = bone(alloc, b"Upper", None)?;
    let lower = bone(alloc, b"Lower", Some(0))?;
    let name = Name::of(alloc, b"Arm")?;
    let bones = List::from(vec![in alloc; upper, lower]?);
    Ok(ArmatureData { name, bones })
}

#[test]
fn a_bone_deforms_from_its_rest_chain(rt: HostRuntime) -> Result<(), Fail> {
    let armature = two_bones(rt.alloc())?;
    let chain = rest_chain(&armature, 0);
    assert_eq!(rt; numbers(&chain), ([0, UNIT, 0], NO_TURN, UNIT));
    assert_eq!(rt;
        numbers(&rest_chain(&armature, 1)),
        ([0, 2_000_000, 0], NO_TURN, UNIT)
    );

    let pose = local_of(&channels([500_000, 0, 0], NO_TURN, UNIT));
    let bone = bone_of(None, &chain, &pose);
    assert_eq!(rt; numbers(&bone), ([500_000, UNIT, 0], NO_TURN, UNIT));
    let carried = deform_of(&bone, &chain).carry(point([1, 2, 3]));
    assert_eq!(rt;
        (carried.x.get(), carried.y.get(), carried.z.get()),
        (500_001, 2, 3)
    );
    Ok(())
}
