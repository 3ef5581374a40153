//! What is found in a small scene.
ghost use Rattle.std.specs.Prelude.{◌≡◌, None};
ghost use Rattle.rig_scene.specs.declared.object.Kind.TheVariants.{Empty};

use super::*;
use crate::channel::Channels;
use crate::object::Kind;
use rig_fixed::{Fx, Raw, V3};
use rig_io::List;
use std::alloc::Global;
use std::test::Fail;

fn object(id: u32, name: Name) -> Object
    ensures id { result.id.0 ≡ id }
    ensures name { result.name ≡ name }
    ensures alone { (result.action ≡ None) × (result.parent ≡ None) }
    ensures kind { result.kind ≡ Empty }
{
    Object {
        id: ObjectId(id),
        name,
        own: Channels {
            loc: V3::ZERO,
            rot: Raw {
                w: Fx::ONE,
                x: Fx::ZERO,
                y: Fx::ZERO,
                z: Fx::ZERO,
            },
            scale: Fx::ONE,
        },
        action: None,
        parent: None,
        kind: Kind::Empty,
    }
}

// The first name begins the second.
fn arm_and_armature(alloc: Global) -> Result<Scene, Fail> {
    let arm = object(3, Name::of(alloc, b"Arm")?);
    let armature = object(7, Name::of(alloc, b"Armature")?);
    let objects = List::from(vec![in alloc; arm, armature]?);
    Ok(Scene {
        actions: List::new(alloc),
        armatures: List::new(alloc),
        pencils: List::new(alloc),
        objects,
        drivers: List::new(alloc),
        next: 8,
        key_count: 0,
        layer_key_count: 0,
    })
}

#[test]
fn whole_names_are_compared(rt: HostRuntime) -> Result<(), Fail> {
    let scene = arm_and_armature(rt.alloc())?.copy()?;
    for (name, found) in [
        (b"Arm".as_slice(), Some(ObjectId(3))),
        (b"Armature".as_slice(), Some(ObjectId(7))),
        (b"Armat".as_slice(), None),
    ] {
        let name = Name::of(rt.alloc(), name)?;
        assert_eq!(rt; scene.find(&name), found);
    }
    Ok(())
}
