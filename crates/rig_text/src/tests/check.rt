//! The text of `check`, byte by byte.
use crate::check_text;
use rig_io::{List, NoMemory};
use rig_scene::{AnimId, Axis, Channel, CutRead, Name, ObjectId, Path, Quantity, Scene};
use rig_scenejson::{SceneStop, scene_of};
use serde_json::Value;
use std::alloc::Global;
use std::test::Fail;

const EMPTY: &str = r#"{"scene": {"version": 1}}"#;

const RING: &str = r#"{"scene": {"version": 1, "objects": [
    {"name": "A", "kind": "empty", "parent": "B"},
    {"name": "B", "kind": "empty", "parent": "A"}]}}"#;

const DRAWN: &str = r#"{"scene": {"version": 1,
"armatures": [{"name": "Arm", "bones": [{"name": "Root"}, {"name": "Tip", "parent": "Root"}]}],
"pencils": [{"name": "Dots"}, {"name": "Ink", "layers": [{"name": "Lines"}, {"name": "Fills"}]}],
"objects": [
    {"name": "A", "kind": "empty"},
    {"name": "Rig", "kind": "armature", "data": "Arm"},
    {"name": "Sketch", "kind": "pencil", "data": "Ink", "modifiers": [
        {"name": "Shift", "kind": "offset", "loc": [0, 11, 0]},
        {"name": "Copies", "kind": "array", "count": 3, "offset": [10, 0, 0]}]}]}}"#;

/// The cut reads of a case.
#[derive(Clone, Copy, Drop)]
enum Cuts {
    None,
    /// That of A in the world by B in the world.
    Worlds,
    /// One of each kind of quantity.
    Kinds,
}

fn cut(source: Quantity, reader: Quantity) -> CutRead {
    CutRead { source, reader }
}

fn kinds(alloc: Global) -> Result<List<CutRead>, Fail> {
    let own = Path::Own(Channel::LocX);
    let tip = Path::Bone(Name::of(alloc, b"Tip")?, Channel::RotW);
    let fills = Path::Layer(Name::of(alloc, b"Fills")?, Axis::Y);
    let cuts = [
        cut(
            Quantity::Chan(AnimId::Object(ObjectId(0)), own),
            Quantity::Local(ObjectId(0)),
        ),
        cut(
            Quantity::Chan(AnimId::Object(ObjectId(1)), tip),
            Quantity::Bone(ObjectId(1), 1),
        ),
        cut(
            Quantity::Chan(AnimId::Pencil(1), fills),
            Quantity::Layer(1, 1),
        ),
        cut(Quantity::Geom(ObjectId(2), 2), Quantity::World(ObjectId(1))),
    ];
    Ok(List::from(Vec::from_array(alloc, cuts)?))
}

fn cuts_of(alloc: Global, cuts: Cuts) -> Result<List<CutRead>, Fail> {
    match cuts {
        Cuts::None => Ok(List::new(alloc)),
        Cuts::Worlds => {
            let worlds = cut(Quantity::World(ObjectId(0)), Quantity::World(ObjectId(1)));
            Ok(List::from(Vec::from_array(alloc, [worlds])?))
        }
        Cuts::Kinds => kinds(alloc),
    }
}

fn scene_in(alloc: Global, text: &str) -> Result<Scene, Fail> {
    let input = Value::from_str(alloc, text)?;
    match scene_of(alloc, &input) {
        Ok(scene) => Ok(scene),
        Err(SceneStop::NoMemory) => Err(NoMemory.into()),
        Err(SceneStop::Fault(fault)) => Err(Fail::new(fault.cause.code())),
    }
}

/// A scene, how many operations and links its graph is said to have, its cut reads, and the text.
#[derive(Clone, Copy, Drop)]
struct Case {
    scene: &'static str,
    operations: u32,
    links: u32,
    cuts: Cuts,
    text: &'static str,
}

const CASES: [Case; 3] = [
    Case {
        scene: EMPTY,
        operations: 1,
        links: 0,
        cuts: Cuts::None,
        text: "objects 0
operations 1
links 0
cuts 0
",
    },
    Case {
        scene: RING,
        operations: 5,
        links: 4,
        cuts: Cuts::Worlds,
        text: "objects 2
operations 5
links 4
cuts 1
cut world A -> world B
",
    },
    Case {
        scene: DRAWN,
        operations: 17,
        links: u32::MAX,
        cuts: Cuts::Kinds,
        text: "objects 3
operations 17
links 4294967295
cuts 4
cut channel object A loc.x -> local A
cut channel object Rig bone Tip rot.w -> bone Rig Tip
cut channel pencil Ink layer Fills offset.y -> layer Ink Fills
cut geometry Sketch 2 -> world Rig
",
    },
];

fn text_of(alloc: Global, case: &Case) -> Result<Vec<u8>, Fail> {
    let scene = scene_in(alloc, case.scene)?;
    let cuts = cuts_of(alloc, case.cuts)?;
    Ok(check_text(alloc, &scene, case.operations, case.links, &cuts)?)
}

#[test]
fn a_graph_is_counted_and_its_cut_reads_are_listed(rt: HostRuntime) -> Result<(), Fail> {
    for case in CASES.as_slice() {
        let text = text_of(rt.alloc(), case)?;
        assert_eq!(rt; text.as_slice(), case.text.as_bytes());
    }
    Ok(())
}
