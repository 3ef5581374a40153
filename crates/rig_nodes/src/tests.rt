//! Tables of small scenes, worked by hand.
ghost use Rattle.std.specs.Prelude.{◌≡◌, IfOk, None};
ghost use Rattle.rig_nodes.specs.Example.{rest, object_of_kind, arm, ink, rig as rig_object, face as face_object, modifier as modifier_record, follower};

use super::*;
use rig_fixed::{Fx, Raw, V3};
use rig_io::List;
use rig_scene::{
    Action, AnimId, ArmatureData, Axis, Channel, Channels, Driver, DriverKind, Effect, Kind, Layer,
    Modifier, Name, Object, ObjectId, OpId, Path, PencilData, RestBone, Scene, Space, Variable,
};
use std::alloc::Global;
use std::test::Fail;

fn crosses<T: Send + Sync>() {}

fn rest_channels() -> Channels
    ensures { result ≡ rest }
{
    Channels {
        loc: V3::ZERO,
        rot: Raw {
            w: Fx::ONE,
            x: Fx::ZERO,
            y: Fx::ZERO,
            z: Fx::ZERO,
        },
        scale: Fx::ONE,
    }
}

fn object(id: u32, name: Name, action: Option<u32>, kind: Kind) -> Object
    ensures { result ≡ object_of_kind id name action kind }
{
    Object {
        id: ObjectId(id),
        name,
        own: rest_channels(),
        action,
        parent: None,
        kind,
    }
}

fn two_empties(alloc: Global) -> Result<Scene, Fail> {
    let action = Action {
        name: Name::of(alloc, b"Move")?,
        curves: List::new(alloc),
    };
    let root = object(0, Name::of(alloc, b"Root")?, Some(0), Kind::Empty);
    let child = object(1, Name::of(alloc, b"Child")?, None, Kind::Empty);
    Ok(Scene {
        actions: List::from(vec![in alloc; action]?),
        armatures: List::new(alloc),
        pencils: List::new(alloc),
        objects: List::from(vec![in alloc; root, child]?),
        drivers: List::new(alloc),
        next: 2,
        key_count: 0,
        layer_key_count: 0,
    })
}

fn armature(alloc: Global) -> Result<ArmatureData, Fail>
    ensures { IfOk result (λ armature. armature ≡ arm) }
{
    let upper = RestBone {
        name: Name::of(alloc, b"upper")?,
        parent: None,
        rest: rest_channels(),
    };
    let lower = RestBone {
        name: Name::of(alloc, b"lower")?,
        parent: Some(0),
        rest: rest_channels(),
    };
    Ok(ArmatureData {
        name: Name::of(alloc, b"Arm")?,
        bones: List::from(vec![in alloc; upper, lower]?),
    })
}

fn pencil(alloc: Global) -> Result<PencilData, Fail>
    ensures { IfOk result (λ pencil. pencil ≡ ink) }
{
    let line = Layer {
        name: Name::of(alloc, b"line")?,
        hidden: false,
        offset: V3::ZERO,
        bound: None,
        keys: List::new(alloc),
    };
    Ok(PencilData {
        name: Name::of(alloc, b"Ink")?,
        action: None,
        drawings: List::new(alloc),
        layers: List::from(vec![in alloc; line]?),
    })
}

fn rig(alloc: Global) -> Result<Object, Fail>
    ensures { IfOk result (λ object. object ≡ rig_object) }
{
    let pose = List::from(vec![in alloc; rest_channels(), rest_channels()]?);
    let kind = Kind::Armature { armature: 0, pose };
    Ok(object(3, Name::of(alloc, b"Rig")?, None, kind))
}

fn modifier(name: Name) -> Modifier
    ensures { result ≡ modifier_record name }
{
    Modifier {
        name,
        viewport: true,
        render: true,
        effect: Effect::Offset {
            loc: V3::ZERO,
            scale: Fx::ONE,
        },
    }
}

fn face(alloc: Global) -> Result<Object, Fail>
    ensures { IfOk result (λ object. object ≡ face_object) }
{
    let low = modifier(Name::of(alloc, b"low")?);
    let high = modifier(Name::of(alloc, b"high")?);
    let kind = Kind::Pencil {
        pencil: 0,
        modifiers: List::from(vec![in alloc; low, high]?),
    };
    Ok(object(7, Name::of(alloc, b"Face")?, None, kind))
}

fn driver(alloc: Global, id: AnimId, path: Path) -> Result<Driver, Fail>
    ensures { IfOk result (λ driver. driver ≡ follower id path) }
{
    let follows = Variable::Transform {
        object: ObjectId(3),
        space: Space::World,
        channel: Channel::LocX,
    };
    Ok(Driver {
        id,
        path,
        kind: DriverKind::Sum,
        variables: List::from(vec![in alloc; follows]?),
    })
}

fn inked_rig(alloc: Global) -> Result<Scene, Fail> {
    let face_x = driver(alloc, AnimId::Object(ObjectId(7)), Path::Own(Channel::LocX))?;
    let line_x = Path::Layer(Name::of(alloc, b"line")?, Axis::X);
    let line_x = driver(alloc, AnimId::Pencil(0), line_x)?;
    Ok(Scene {
        actions: List::new(alloc),
        armatures: List::from(vec![in alloc; armature(alloc)?]?),
        pencils: List::from(vec![in alloc; pencil(alloc)?]?),
        objects: List::from(vec![in alloc; rig(alloc)?, face(alloc)?]?),
        drivers: List::from(vec![in alloc; face_x, line_x]?),
        next: 8,
        key_count: 0,
        layer_key_count: 0,
    })
}

// Whether these operations stand in a table from a number on.
fn stand_from(table: &NodeTable, first: u32, ops: &[OpId]) -> bool {
    let mut n = first;
    for op in ops {
        if n >= table.len() || table.op(n) != op || table.number(op) != Some(n) {
            return false;
        }
        n += 1;
    }
    true
}

fn begins_with_the_pencil(alloc: Global, table: &NodeTable) -> Result<bool, Fail> {
    let line_x = Path::Layer(Name::of(alloc, b"line")?, Axis::X);
    let ops = [
        OpId::Time,
        OpId::Driver(AnimId::Pencil(0), line_x),
        OpId::Layer(0, 0),
    ];
    Ok(stand_from(table, 0, &ops))
}

fn goes_on_with_the_rig(table: &NodeTable) -> bool {
    let rig = ObjectId(3);
    let ops = [
        OpId::Local(rig),
        OpId::World(rig),
        OpId::PoseInit(rig),
        OpId::Bone(rig, 0),
        OpId::Bone(rig, 1),
        OpId::PoseDone(rig),
    ];
    stand_from(table, 3, &ops)
}

fn ends_with_the_face(table: &NodeTable) -> bool {
    let face = ObjectId(7);
    let ops = [
        OpId::Driver(AnimId::Object(face), Path::Own(Channel::LocX)),
        OpId::Local(face),
        OpId::World(face),
        OpId::Geometry(face),
        OpId::ModifierOp(face, 1),
        OpId::ModifierOp(face, 2),
        OpId::GeometryDone(face),
    ];
    stand_from(table, 9, &ops)
}

#[test]
fn tables_cross_threads() {
    crosses::<NodeTable>();
}

#[test]
fn an_object_has_an_animation_where_it_has_an_action(rt: HostRuntime) -> Result<(), Fail> {
    let scene = two_empties(rt.alloc())?;
    let table = nodes(rt.alloc(), &scene)?;
    let (root, child) = (ObjectId(0), ObjectId(1));
    let ops = [
        OpId::Time,
        OpId::Animation(AnimId::Object(root)),
        OpId::Local(root),
        OpId::World(root),
        OpId::Local(child),
        OpId::World(child),
    ];
    assert_eq!(rt; table.len(), 6);
    assert!(rt; stand_from(&table, 0, &ops));
    let absent = OpId::Animation(AnimId::Object(child));
    assert_eq!(rt; table.number(&absent), None);
    Ok(())
}

#[test]
fn pencils_come_first_and_drivers_stand_by_what_they_drive(rt: HostRuntime) -> Result<(), Fail> {
    let scene = inked_rig(rt.alloc())?;
    let rows = drivers_by_owner(rt.alloc(), &scene)?;
    assert!(rt; rows.items() == [1, 0].as_slice());
    let table = nodes(rt.alloc(), &scene)?;
    assert_eq!(rt; table.len(), 16);
    assert!(rt; begins_with_the_pencil(rt.alloc(), &table)?);
    assert!(rt; goes_on_with_the_rig(&table));
    assert!(rt; ends_with_the_face(&table));
    Ok(())
}
