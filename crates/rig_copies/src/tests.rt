//! Outputs that are kept, replaced, taken again and numbered anew.
ghost use Rattle.std.specs.Prelude.{◌≡◌, ◌<◌, [], ◌∷◌, None, IfOk};
ghost use Rattle.rig_scene.specs.declared.object.Kind.TheVariants.{Empty};
ghost use Rattle.rig_nodes.specs.Example.{rest as at_rest, object_of_kind};

use super::*;
use rig_cut::Plan;
use rig_fixed::{Fx, Raw, V3};
use rig_io::{List, NoMemory};
use rig_kernel::{Out, rest};
use rig_nodes::nodes;
use rig_scene::{Channels, Kind, Name, Object, ObjectId, OpId, Scene};
use std::alloc::Global;
use std::test::Fail;

fn crosses<T: Send + Sync>() {}

fn rest_channels() -> Channels
    ensures { result ≡ at_rest }
{
    Channels {
        loc: V3::ZERO,
        rot: Raw {
            w: Fx::ONE,
            x: Fx::ZERO,
            y: Fx::ZERO,
            z: Fx::ZERO,
        },
        scale: Fx::ONE,
    }
}

fn empty(id: u32, name: Name) -> Object
    ensures { result ≡ object_of_kind id name None Empty }
{
    Object {
        id: ObjectId(id),
        name,
        own: rest_channels(),
        action: None,
        parent: None,
        kind: Kind::Empty,
    }
}

/// The empties Root and Child, with the ids 0 and 1.
fn root_and_child(alloc: Global) -> Result<Scene, Fail> {
    let root = empty(0, Name::of(alloc, b"Root")?);
    let child = empty(1, Name::of(alloc, b"Child")?);
    Ok(Scene {
        actions: List::new(alloc),
        armatures: List::new(alloc),
        pencils: List::new(alloc),
        objects: List::from(vec![in alloc; root, child]?),
        drivers: List::new(alloc),
        next: 2,
        key_count: 0,
        layer_key_count: 0,
    })
}

/// The same without Root.
fn child_alone(alloc: Global) -> Result<Scene, Fail> {
    let child = empty(1, Name::of(alloc, b"Child")?);
    Ok(Scene {
        actions: List::new(alloc),
        armatures: List::new(alloc),
        pencils: List::new(alloc),
        objects: List::from(vec![in alloc; child]?),
        drivers: List::new(alloc),
        next: 2,
        key_count: 0,
        layer_key_count: 0,
    })
}

/// An output that is told by the id of its object.
fn output(alloc: Global, id: u32) -> Result<Out, NoMemory> {
    rest(alloc, &OpId::World(ObjectId(id)))
}

fn plan_of(alloc: Global, first: u32, second: u32) -> Result<Plan, NoMemory>
    ensures { IfOk result (λ plan. plan ≡ record { op = first; ins = [] } ∷ record { op = second; ins = [] } ∷ []) }
{
    let mut plan = Plan::new(alloc);
    plan.push(first, &[])?;
    plan.push(second, &[])?;
    Ok(plan)
}

/// Puts two outputs, each at a number below 8, where it is told by an id.
fn put_two(
    alloc: Global,
    copies: &mut Copies,
    numbers: (u32, u32),
    ids: (u32, u32),
) -> Result<(), NoMemory>
    requires first { numbers.0 < 8 }
    requires second { numbers.1 < 8 }
{
    let plan = plan_of(alloc, numbers.0, numbers.1)?;
    let outs = vec![in alloc; output(alloc, ids.0)?, output(alloc, ids.1)?]?;
    copies.extend_to(8)?;
    copies.reserve(2)?;
    copies.put_all(&plan, List::from(outs));
    Ok(())
}

fn is_of(out: Option<&Out>, id: u32) -> bool {
    match out {
        Some(out) => *out.op() == OpId::World(ObjectId(id)),
        None => false,
    }
}

#[test]
fn copies_cross_threads() {
    crosses::<Copies>();
}

#[test]
fn nothing_is_kept_at_first(rt: HostRuntime) -> Result<(), Fail> {
    let mut copies = Copies::new(rt.alloc());
    assert!(rt; copies.get(0).is_none());
    copies.extend_to(3)?;
    assert!(rt; copies.get(2).is_none());
    assert!(rt; copies.get(3).is_none());
    Ok(())
}

#[test]
fn the_last_output_of_a_number_is_kept(rt: HostRuntime) -> Result<(), Fail> {
    let mut copies = Copies::new(rt.alloc());
    put_two(rt.alloc(), &mut copies, (1, 1), (20, 21))?;
    assert!(rt; is_of(copies.get(1), 21));
    put_two(rt.alloc(), &mut copies, (1, 2), (22, 23))?;
    assert!(rt; is_of(copies.get(1), 22));
    assert!(rt; is_of(copies.get(2), 23));
    assert!(rt; copies.get(0).is_none());
    Ok(())
}

#[test]
fn a_replaced_output_is_a_spare_once(rt: HostRuntime) -> Result<(), Fail> {
    let mut copies = Copies::new(rt.alloc());
    put_two(rt.alloc(), &mut copies, (1, 2), (20, 21))?;
    assert!(rt; copies.take_spare(1).is_none());
    put_two(rt.alloc(), &mut copies, (1, 3), (22, 23))?;
    assert!(rt; is_of(copies.take_spare(1).as_ref(), 20));
    assert!(rt; copies.take_spare(1).is_none());
    assert!(rt; is_of(copies.get(1), 22));
    Ok(())
}

#[test]
fn outputs_move_with_their_operations(rt: HostRuntime) -> Result<(), Fail> {
    let old = nodes(rt.alloc(), &root_and_child(rt.alloc())?)?;
    let new = nodes(rt.alloc(), &child_alone(rt.alloc())?)?;
    let mut copies = Copies::new(rt.alloc());
    put_two(rt.alloc(), &mut copies, (2, 4), (0, 1))?;
    copies.rebind(&old, &new)?;
    assert!(rt; is_of(copies.get(2), 1));
    assert!(rt; copies.get(1).is_none());
    assert!(rt; copies.get(4).is_none());
    Ok(())
}

#[test]
fn more_room_changes_nothing_also_where_it_is_refused(rt: HostRuntime) -> Result<(), Fail> {
    let mut copies = Copies::new(rt.alloc());
    put_two(rt.alloc(), &mut copies, (0, 5), (20, 21))?;
    let _grown = copies.extend_to(1000).is_ok() && copies.reserve(1000).is_ok();
    assert!(rt; is_of(copies.get(0), 20));
    assert!(rt; is_of(copies.get(5), 21));
    assert!(rt; copies.get(6).is_none());
    Ok(())
}
