//! What frames show of whole scenes, evaluated from scratch, and what an edit of one touches, tags and makes run.
ghost use Rattle.std.specs.Prelude.{◌≡◌, length, IsTrue};
ghost use Rattle.rig_flush.specs.Tables.{AreTables};
ghost use Rattle.rig_scene.specs.WellFormed.{is_frame};

use crate::scenes::{ROOT_AND_CHILD, scene_in};
use rig_cut::{MAX_NODES, Plan};
use rig_edits::Edit;
use rig_flush::{Tags, flush, retag, scratch};
use rig_io::{Count, List, NoMemory};
use rig_kernel::{Done, Out, Value};
use rig_links::{LinkTable, links};
use rig_nodes::{NodeTable, nodes};
use rig_scene::{AnimId, Channel, Interp, Mode, Name, ObjectId, OpId, Path, Scene, Strokes};
use rig_touch::{keeps_links, touch};
use std::alloc::Global;
use std::test::Fail;

/// A quarter turn about z carries a child that stands at x = 1.
const TURNED_PARENT: &str = r#"{"scene":{"version":1,"objects":[
    {"name":"P","kind":"empty","rot":[707107,0,0,707107]},{"name":"C","kind":"empty","parent":"P","loc":[1000000,0,0]}]}}"#;

/// A's `loc.x` is driven by the world `loc.x` of its child B: the read of A's world by B's is cut.
const DRIVEN_BY_ITS_CHILD: &str = r#"{"scene":{"version":1,
    "objects":[{"name":"A","kind":"empty"},{"name":"B","kind":"empty","parent":"A","loc":[1000000,0,0]}],
    "drivers":[{"object":"A","channel":"loc.x","kind":"sum","variables":[
        {"kind":"transform","object":"B","channel":"loc.x"}]}]}}"#;

/// A channel that is driven by itself.
const DRIVEN_BY_ITSELF: &str =
    r#"{"scene":{"version":1,"objects":[{"name":"A","kind":"empty","loc":[5,7,0]}],
    "drivers":[{"object":"A","channel":"loc.x","kind":"sum","variables":[{"kind":"property","object":"A","channel":"loc.x"}]}]}}"#;

/// A mirror that is off in the viewport.
const MIRROR_FOR_RENDER: &str = r#"{"scene":{"version":1,
    "pencils":[{"name":"Ink","drawings":[{"strokes":[[[1000,2,3]]]}],"layers":[{"name":"Lines","keys":[{"frame":1,"drawing":0}]}]}],
    "objects":[{"name":"Line","kind":"pencil","data":"Ink","modifiers":[{"name":"M","kind":"mirror","x":true,"viewport":false}]}]}}"#;

/// Two objects at the limit, one of which carries the other.
const AT_THE_LIMIT: &str =
    r#"{"scene":{"version":1,"objects":[{"name":"P","kind":"empty","loc":[1000000000000,0,0]},
    {"name":"C","kind":"empty","parent":"P","loc":[1000000000000,0,0]}]}}"#;

/// A bone that is posed, and a layer that is bound to it.
const BOUND_LAYER: &str =
    r#"{"scene":{"version":1,"armatures":[{"name":"Arm","bones":[{"name":"Hand","loc":[0,1000000,0]}]}],
    "pencils":[{"name":"Ink","drawings":[{"strokes":[[[1,2,3]]]}],
        "layers":[{"name":"Lines","armature":"Rig","bone":"Hand","keys":[{"frame":1,"drawing":0}]}]}],
    "objects":[{"name":"Rig","kind":"armature","data":"Arm","pose":[{"bone":"Hand","loc":[500000,0,0]}]},
        {"name":"Line","kind":"pencil","data":"Ink"}]}}"#;

/// A pencil object at x = 1 that is mirrored about an object at x = 3.
const MIRROR_ABOUT_AN_OBJECT: &str = r#"{"scene":{"version":1,
    "pencils":[{"name":"Ink","drawings":[{"strokes":[[[500000,0,0]]]}],"layers":[{"name":"Lines","keys":[{"frame":1,"drawing":0}]}]}],
    "objects":[{"name":"Line","kind":"pencil","data":"Ink","loc":[1000000,0,0],
            "modifiers":[{"name":"M","kind":"mirror","x":true,"object":"Centre"}]},
        {"name":"Centre","kind":"empty","loc":[3000000,0,0]}]}}"#;

/// The numbers that an output shows: of a transform the location, the rotation and the scale, of strokes the points.
fn push_value(numbers: &mut Vec<i64>, value: &Value) -> Result<(), NoMemory> {
    match value {
        Value::Transform(t) => {
            let loc = [t.loc.x.get(), t.loc.y.get(), t.loc.z.get()];
            let rot = [t.rot.w, t.rot.x, t.rot.y, t.rot.z];
            numbers.extend_from_slice(&loc)?;
            numbers.extend_from_slice(&rot)?;
            numbers.push(t.scale.get())?;
            Ok(())
        }
        Value::Strokes(strokes) => push_points(numbers, strokes.get()),
        Value::Number(_) | Value::Numbers(_) => Ok(()),
    }
}

fn push_points(numbers: &mut Vec<i64>, strokes: &Strokes) -> Result<(), NoMemory> {
    for stroke in strokes.as_slice() {
        for point in stroke.points.as_slice() {
            numbers.extend_from_slice(&[point.x.get(), point.y.get(), point.z.get()])?;
        }
    }
    Ok(())
}

fn numbers_of(alloc: Global, outs: &[Out]) -> Result<Vec<i64>, NoMemory> {
    let mut numbers = Vec::new(alloc);
    for out in outs {
        push_value(&mut numbers, out.value())?;
    }
    Ok(numbers)
}

fn has(alloc: Global, done: &Done, cuts: usize, numbers: &[i64]) -> Result<bool, NoMemory> {
    let found = numbers_of(alloc, done.outs.as_slice())?;
    Ok(done.cuts.len() == cuts && found.as_slice() == numbers)
}

/// Whether a frame of a scene has so many cut reads and shows these numbers, object after object.
fn shows(
    alloc: Global,
    text: &str,
    mode: Mode,
    frame: i32,
    cuts: usize,
    numbers: &[i64],
) -> Result<bool, Fail>
    requires { IsTrue (is_frame frame) }
{
    let scene = scene_in(alloc, text)?;
    let mut tally = Count::new();
    let done = scratch(alloc, &scene, mode, frame, &mut tally)?;
    Ok(has(alloc, &done, cuts, numbers)?)
}

#[test]
fn frames_are_evaluated_from_scratch(rt: HostRuntime) -> Result<(), Fail> {
    let alloc = rt.alloc();
    let view = Mode::Viewport;
    let u = 1_000_000;
    let limit = 1_000_000_000_000;
    let root_and_child = [5 * u, 0, 0, u, 0, 0, 0, u, 7 * u, 0, 0, u, 0, 0, 0, u];
    assert!(rt; shows(alloc, ROOT_AND_CHILD, view, 6, 0, &root_and_child)?);
    let q = 707_107;
    let turned = [0, 0, 0, q, 0, 0, q, u, -1, u + 1, 0, q, 0, 0, q, u];
    assert!(rt; shows(alloc, TURNED_PARENT, view, 1, 0, &turned)?);
    let both_at_one = [u, 0, 0, u, 0, 0, 0, u, u, 0, 0, u, 0, 0, 0, u];
    assert!(rt; shows(alloc, DRIVEN_BY_ITS_CHILD, view, 1, 1, &both_at_one)?);
    assert!(rt;
        shows(
            alloc,
            DRIVEN_BY_ITSELF,
            view,
            1,
            1,
            &[0, 7, 0, u, 0, 0, 0, u]
        )?
    );
    let both_at_the_limit = [limit, 0, 0, u, 0, 0, 0, u, limit, 0, 0, u, 0, 0, 0, u];
    assert!(rt; shows(alloc, AT_THE_LIMIT, view, 1, 0, &both_at_the_limit)?);
    Ok(())
}

#[test]
fn strokes_are_evaluated_from_scratch(rt: HostRuntime) -> Result<(), Fail> {
    let alloc = rt.alloc();
    let view = Mode::Viewport;
    let u = 1_000_000;
    let seen = [0, 0, 0, u, 0, 0, 0, u, 1000, 2, 3];
    assert!(rt; shows(alloc, MIRROR_FOR_RENDER, view, 1, 0, &seen)?);
    let rendered = [0, 0, 0, u, 0, 0, 0, u, 1000, 2, 3, -1000, 2, 3];
    assert!(rt; shows(alloc, MIRROR_FOR_RENDER, Mode::Render, 1, 0, &rendered)?);
    let bound = [
        0, 0, 0, u, 0, 0, 0, u, 500_000, u, 0, u, 0, 0, 0, u, 0, 0, 0, u, 0, 0, 0, u, 500_001, 2, 3,
    ];
    assert!(rt; shows(alloc, BOUND_LAYER, view, 1, 0, &bound)?);
    let mirrored = [
        u,
        0,
        0,
        u,
        0,
        0,
        0,
        u,
        500_000,
        0,
        0,
        3_500_000,
        0,
        0,
        3 * u,
        0,
        0,
        u,
        0,
        0,
        0,
        u,
    ];
    assert!(rt; shows(alloc, MIRROR_ABOUT_AN_OBJECT, view, 1, 0, &mirrored)?);
    Ok(())
}

fn key_of_move(alloc: Global) -> Result<Edit, Fail> {
    Ok(Edit::SetKey {
        action: Name::of(alloc, b"Move")?,
        path: Path::Own(Channel::LocX),
        frame: 5,
        value: 0,
        interp: Interp::Linear,
    })
}

fn touches_the_animation_alone(
    alloc: Global,
    scene: &Scene,
    edit: &Edit,
) -> Result<bool, NoMemory> {
    let touched = touch(alloc, scene, edit)?;
    Ok(match touched.as_slice() {
        [OpId::Animation(AnimId::Object(ObjectId(0)))] => true,
        _ => false,
    })
}

#[test]
fn a_key_touches_the_animation_of_its_object(rt: HostRuntime) -> Result<(), Fail> {
    let scene = scene_in(rt.alloc(), ROOT_AND_CHILD)?;
    let edit = key_of_move(rt.alloc())?;
    assert!(rt; touches_the_animation_alone(rt.alloc(), &scene, &edit)?);
    Ok(())
}

fn layer_key(alloc: Global, layer: &[u8]) -> Result<Edit, Fail> {
    Ok(Edit::SetLayerKey {
        pencil: Name::of(alloc, b"Ink")?,
        layer: Name::of(alloc, layer)?,
        frame: 5,
        drawing: 0,
    })
}

fn no_layer_key(alloc: Global, layer: &[u8]) -> Result<Edit, Fail> {
    Ok(Edit::DeleteLayerKey {
        pencil: Name::of(alloc, b"Ink")?,
        layer: Name::of(alloc, layer)?,
        frame: 1,
    })
}

fn keeps(scene: &Scene, edit: Edit) -> bool {
    keeps_links(scene, &edit)
}

/// A key for a layer that has one, for one that isn't there, and the deletion of a last key. Then a key of an action.
#[test]
fn a_second_key_of_a_layer_keeps_all_links(rt: HostRuntime) -> Result<(), Fail> {
    let alloc = rt.alloc();
    let scene = scene_in(alloc, BOUND_LAYER)?;
    assert!(rt; keeps(&scene, layer_key(alloc, b"Lines")?));
    assert!(rt; !keeps(&scene, layer_key(alloc, b"Other")?));
    assert!(rt; !keeps(&scene, no_layer_key(alloc, b"Lines")?));
    assert!(rt; keeps(&scene, key_of_move(alloc)?));
    Ok(())
}

const ROOT: ObjectId = ObjectId(0);

const CHILD: ObjectId = ObjectId(1);

fn tag(alloc: Global, op: OpId) -> Result<Tags, NoMemory> {
    let mut tags = Tags::new(alloc);
    tags.add(op)?;
    Ok(tags)
}

fn are_planned(nodes: &NodeTable, plan: &Plan) -> bool {
    plan.len() == 4 && are_in_order(nodes, plan) && plan.sources() == [0, 1, 2].as_slice()
}

fn are_in_order(nodes: &NodeTable, plan: &Plan) -> bool
    requires { length plan.now ≡ 4 }
{
    nodes.number(&OpId::Animation(AnimId::Object(ROOT))) == Some(plan.op(0))
        && nodes.number(&OpId::Local(ROOT)) == Some(plan.op(1))
        && nodes.number(&OpId::World(ROOT)) == Some(plan.op(2))
        && nodes.number(&OpId::World(CHILD)) == Some(plan.op(3))
}

/// Root's animation leads to its two transforms, and to the world transform of its child.
fn is_flushed(alloc: Global, nodes: &NodeTable, links: &LinkTable) -> Result<bool, NoMemory>
    requires { AreTables nodes.now links.now }
{
    let tags = tag(alloc, OpId::Animation(AnimId::Object(ROOT)))?;
    let plan = flush(alloc, nodes, links, &tags)?;
    Ok(are_planned(nodes, &plan))
}

fn are_both_tagged(tags: &Tags) -> bool {
    tags.len() == 2 && *tags.get(0) == OpId::Local(ROOT) && *tags.get(1) == OpId::World(CHILD)
}

/// What was tagged and what is touched are tagged, in the order of the scene.
fn is_retagged(alloc: Global, nodes: &NodeTable, links: &LinkTable) -> Result<bool, NoMemory>
    requires { length links.now.ins ≡ length nodes.now }
{
    let tags = tag(alloc, OpId::World(CHILD))?;
    let touched = List::from(vec![in alloc; OpId::Local(ROOT)]?);
    let new = retag(alloc, nodes, links, nodes, links, &tags, &touched)?;
    Ok(are_both_tagged(&new) && !new.has(&OpId::Time))
}

fn is_flushed_and_retagged(alloc: Global, scene: &Scene) -> Result<bool, NoMemory> {
    let nodes = nodes(alloc, scene)?;
    let links = links(alloc, scene, &nodes)?;
    if nodes.len() > MAX_NODES {
        return Ok(false);
    }
    Ok(is_flushed(alloc, &nodes, &links)? && is_retagged(alloc, &nodes, &links)?)
}

#[test]
fn an_animation_takes_the_child_along(rt: HostRuntime) -> Result<(), Fail> {
    let scene = scene_in(rt.alloc(), ROOT_AND_CHILD)?;
    assert!(rt; is_flushed_and_retagged(rt.alloc(), &scene)?);
    Ok(())
}
