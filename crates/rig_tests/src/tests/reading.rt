//! A scene with every kind of record, and inputs with one fault each.
use rig_fixed::{Fx, Raw, V3};
use rig_io::{List, NoMemory};
use rig_scene::{
    Action, AnimId, ArmatureData, Axis, BoneRef, Channel, Channels, Curve, Drawing, Driver,
    DriverKind, Effect, Interp, Key, Kind, Layer, LayerKey, Mirror, Modifier, Name, NameStop,
    Object, ObjectId, Parent, Path, PencilData, RestBone, Scene, Space, Stroke, Variable,
};
use rig_scenejson::{Cause, Hop, Place, SceneStop, scene_of};
use serde_json::Value;
use std::alloc::Global;
use std::test::Fail;

const EVERYTHING: &str = r#"{"script": 0, "scene": {
"version": 1, "made_by": null,
"actions": [{"name": "Walk", "curves": [
    {"channel": "loc.x", "keys": [{"frame": -5, "value": 10, "interp": "constant"}, {"frame": 1000000, "value": -20}]},
    {"bone": "Tip", "layer": 7, "channel": "rot.w"}]}],
"armatures": [{"name": "Arm", "bones": [
    {"name": "Root", "parent": null, "scale": 2000000},
    {"name": "Tip", "parent": "Root", "loc": [1, -2, 3], "rot": [4, 5, 6, -7]}]}],
"pencils": [{"name": "Ink", "action": "Walk",
    "drawings": [{"strokes": [[[1, 2, 3], [4, 5, 6]], [[7, 8, 9]]]}, {}],
    "layers": [{"name": "Lines", "bone": 0, "keys": [{"frame": 1, "drawing": 1}, {"frame": 2, "drawing": 0}]},
        {"name": "Fills", "hidden": true, "offset": [4, 5, 6], "armature": "Rig", "bone": "Tip"}]}],
"objects": [
    {"name": "Rig", "kind": "armature", "data": "Arm", "action": "Walk", "parent_bone": 0, "modifiers": 0,
        "pose": [{"bone": "Tip", "loc": [7, 8, 9], "scale": 0}]},
    {"name": "Sketch", "kind": "pencil", "data": "Ink", "parent": "Rig", "parent_bone": "Tip", "scale": -5,
        "modifiers": [{"name": "Flip", "kind": "mirror", "render": false, "x": true, "object": "Rig"},
            {"name": "Copies", "kind": "array", "count": 64, "offset": [10, 0, 0]},
            {"name": "Shift", "kind": "offset", "viewport": false, "loc": [0, 11, 0]}]},
    {"name": "Origin", "kind": "empty", "parent": "Sketch", "data": 0}],
"drivers": [{"object": "Rig", "bone": "Root", "channel": "loc.z", "kind": "sum", "variables": [
    {"kind": "property", "pencil": "Ink", "layer": "Fills", "channel": "offset.y"},
    {"kind": "transform", "object": "Rig", "bone": "Tip", "channel": "rot.x", "space": 0},
    {"kind": "transform", "object": "Sketch", "channel": "scale", "space": "local"}]}]
}}"#;

pub(super) fn named(alloc: Global, text: &str) -> Result<Name, NoMemory> {
    match Name::of(alloc, text.as_bytes()) {
        Ok(name) => Ok(name),
        Err(NameStop::NoMemory) | Err(NameStop::BadName) => Err(NoMemory),
    }
}

fn list<T: Drop, const N: usize>(alloc: Global, items: [T; N]) -> Result<List<T>, NoMemory> {
    Ok(List::from(Vec::from_array(alloc, items)?))
}

fn vector(x: i64, y: i64, z: i64) -> V3 {
    V3 {
        x: Fx::of_i64(x),
        y: Fx::of_i64(y),
        z: Fx::of_i64(z),
    }
}

fn rotation(w: i64, x: i64, y: i64, z: i64) -> Raw {
    Raw {
        w: Fx::of_i64(w),
        x: Fx::of_i64(x),
        y: Fx::of_i64(y),
        z: Fx::of_i64(z),
    }
}

fn channels(loc: V3, rot: Raw, scale: i64) -> Channels {
    Channels {
        loc,
        rot,
        scale: Fx::of_i64(scale),
    }
}

fn key(frame: i32, interp: Interp, value: i64) -> Key {
    Key {
        frame,
        interp,
        value: Fx::of_i64(value),
    }
}

fn expected_actions(alloc: Global) -> Result<List<Action>, NoMemory> {
    let keys = [
        key(-5, Interp::Constant, 10),
        key(1_000_000, Interp::Linear, -20),
    ];
    let loc = Curve {
        path: Path::Own(Channel::LocX),
        keys: list(alloc, keys)?,
    };
    let tip = Curve {
        path: Path::Bone(named(alloc, "Tip")?, Channel::RotW),
        keys: List::new(alloc),
    };
    let walk = Action {
        name: named(alloc, "Walk")?,
        curves: list(alloc, [loc, tip])?,
    };
    list(alloc, [walk])
}

fn expected_armatures(alloc: Global) -> Result<List<ArmatureData>, NoMemory> {
    let root = RestBone {
        name: named(alloc, "Root")?,
        parent: None,
        rest: channels(V3::ZERO, rotation(1_000_000, 0, 0, 0), 2_000_000),
    };
    let tip = RestBone {
        name: named(alloc, "Tip")?,
        parent: Some(0),
        rest: channels(vector(1, -2, 3), rotation(4, 5, 6, -7), 1_000_000),
    };
    let arm = ArmatureData {
        name: named(alloc, "Arm")?,
        bones: list(alloc, [root, tip])?,
    };
    list(alloc, [arm])
}

fn expected_layers(alloc: Global) -> Result<List<Layer>, NoMemory> {
    let keys = [
        LayerKey {
            frame: 1,
            drawing: 1,
        },
        LayerKey {
            frame: 2,
            drawing: 0,
        },
    ];
    let lines = Layer {
        name: named(alloc, "Lines")?,
        hidden: false,
        offset: V3::ZERO,
        bound: None,
        keys: list(alloc, keys)?,
    };
    let fills = Layer {
        name: named(alloc, "Fills")?,
        hidden: true,
        offset: vector(4, 5, 6),
        bound: Some(BoneRef {
            object: ObjectId(0),
            bone: 1,
        }),
        keys: List::new(alloc),
    };
    list(alloc, [lines, fills])
}

fn expected_pencils(alloc: Global) -> Result<List<PencilData>, NoMemory> {
    let line = Stroke {
        points: list(alloc, [vector(1, 2, 3), vector(4, 5, 6)])?,
    };
    let dot = Stroke {
        points: list(alloc, [vector(7, 8, 9)])?,
    };
    let drawn = Drawing {
        strokes: list(alloc, [line, dot])?,
    };
    let empty = Drawing {
        strokes: List::new(alloc),
    };
    let ink = PencilData {
        name: named(alloc, "Ink")?,
        action: Some(0),
        drawings: list(alloc, [drawn, empty])?,
        layers: expected_layers(alloc)?,
    };
    list(alloc, [ink])
}

fn expected_modifiers(alloc: Global) -> Result<List<Modifier>, NoMemory> {
    let flip = Modifier {
        name: named(alloc, "Flip")?,
        viewport: true,
        render: false,
        effect: Effect::Mirror(Mirror {
            x: true,
            y: false,
            z: false,
            centre: Some(ObjectId(0)),
        }),
    };
    let copies = Modifier {
        name: named(alloc, "Copies")?,
        viewport: true,
        render: true,
        effect: Effect::Array {
            count: 64,
            offset: vector(10, 0, 0),
        },
    };
    let shift = Modifier {
        name: named(alloc, "Shift")?,
        viewport: false,
        render: true,
        effect: Effect::Offset {
            loc: vector(0, 11, 0),
            scale: Fx::ONE,
        },
    };
    list(alloc, [flip, copies, shift])
}

fn expected_objects(alloc: Global) -> Result<List<Object>, NoMemory> {
    let at_rest = rotation(1_000_000, 0, 0, 0);
    let pose = [
        channels(V3::ZERO, at_rest, 1_000_000),
        channels(vector(7, 8, 9), at_rest, 0),
    ];
    let rig = Object {
        id: ObjectId(0),
        name: named(alloc, "Rig")?,
        own: channels(V3::ZERO, at_rest, 1_000_000),
        action: Some(0),
        parent: None,
        kind: Kind::Armature {
            armature: 0,
            pose: list(alloc, pose)?,
        },
    };
    let sketch = Object {
        id: ObjectId(1),
        name: named(alloc, "Sketch")?,
        own: channels(V3::ZERO, at_rest, -5),
        action: None,
        parent: Some(Parent {
            object: ObjectId(0),
            bone: Some(1),
        }),
        kind: Kind::Pencil {
            pencil: 0,
            modifiers: expected_modifiers(alloc)?,
        },
    };
    let origin = Object {
        id: ObjectId(2),
        name: named(alloc, "Origin")?,
        own: channels(V3::ZERO, at_rest, 1_000_000),
        action: None,
        parent: Some(Parent {
            object: ObjectId(1),
            bone: None,
        }),
        kind: Kind::Empty,
    };
    list(alloc, [rig, sketch, origin])
}

fn expected_drivers(alloc: Global) -> Result<List<Driver>, NoMemory> {
    let fills = Variable::Property {
        id: AnimId::Pencil(0),
        path: Path::Layer(named(alloc, "Fills")?, Axis::Y),
    };
    let tip = Variable::Transform {
        object: ObjectId(0),
        space: Space::Pose(1),
        channel: Channel::RotX,
    };
    let sketch = Variable::Transform {
        object: ObjectId(1),
        space: Space::Local,
        channel: Channel::Scale,
    };
    let driver = Driver {
        id: AnimId::Object(ObjectId(0)),
        path: Path::Bone(named(alloc, "Root")?, Channel::LocZ),
        kind: DriverKind::Sum,
        variables: list(alloc, [fills, tip, sketch])?,
    };
    list(alloc, [driver])
}

fn read(alloc: Global, text: &str) -> Result<Scene, SceneStop> {
    match Value::from_str(alloc, text) {
        Ok(input) => scene_of(alloc, &input),
        Err(_) => Err(SceneStop::NoMemory),
    }
}

// The scene of the input with every kind of record.
fn everything(alloc: Global) -> Result<Scene, Fail> {
    match read(alloc, EVERYTHING) {
        Ok(scene) => Ok(scene),
        Err(SceneStop::NoMemory) => Err(NoMemory.into()),
        Err(SceneStop::Fault(fault)) => Err(Fail::new(fault.cause.code())),
    }
}

#[test]
fn every_action_is_read(rt: HostRuntime) -> Result<(), Fail> {
    let scene = everything(rt.alloc())?;
    assert!(rt; scene.actions == expected_actions(rt.alloc())?);
    Ok(())
}

#[test]
fn every_armature_is_read(rt: HostRuntime) -> Result<(), Fail> {
    let scene = everything(rt.alloc())?;
    assert!(rt; scene.armatures == expected_armatures(rt.alloc())?);
    Ok(())
}

#[test]
fn every_pencil_is_read(rt: HostRuntime) -> Result<(), Fail> {
    let scene = everything(rt.alloc())?;
    assert!(rt; scene.pencils == expected_pencils(rt.alloc())?);
    Ok(())
}

#[test]
fn every_object_is_read(rt: HostRuntime) -> Result<(), Fail> {
    let scene = everything(rt.alloc())?;
    assert!(rt; scene.objects == expected_objects(rt.alloc())?);
    assert_eq!(rt; scene.next, 3);
    Ok(())
}

#[test]
fn every_driver_is_read(rt: HostRuntime) -> Result<(), Fail> {
    let scene = everything(rt.alloc())?;
    assert!(rt; scene.drivers == expected_drivers(rt.alloc())?);
    Ok(())
}

// The place as it is printed: a step is `/` and a member's name or an index.
fn printed(alloc: Global, place: &Place) -> Result<String, NoMemory> {
    let mut text = String::new(alloc);
    for hop in place.as_slice() {
        let step = match hop {
            Hop::Member(member) => format!(in alloc; "/{}", member.word())?,
            Hop::Index(index) => format!(in alloc; "/{index}")?,
        };
        text.push_str(step.as_str())?;
    }
    Ok(text)
}

/// An input, and the cause and place of its first fault.
#[derive(Clone, Copy, Drop)]
struct Case {
    text: &'static str,
    cause: Cause,
    place: &'static str,
}

const FAULTS: [Case; 16] = [
    Case {
        text: r#"[]"#,
        cause: Cause::WrongKind,
        place: "",
    },
    Case {
        text: r#"{"scene": null}"#,
        cause: Cause::Missing,
        place: "/scene",
    },
    Case {
        text: r#"{"scene": {"version": 1099511627776}}"#,
        cause: Cause::Version,
        place: "/scene/version",
    },
    Case {
        text: r#"{"scene": {"version": 1, "objects": [{"name": "A", "kind": "empty", "loc": [0, 1.5, "a"]}]}}"#,
        cause: Cause::NotWhole,
        place: "/scene/objects/0/loc/1",
    },
    Case {
        text: r#"{"scene": {"version": 1, "objects": [{"name": "A", "kind": "empty"}, {"name": "A"}]}}"#,
        cause: Cause::Duplicate,
        place: "/scene/objects/1/name",
    },
    Case {
        text: r#"{"scene": {"version": 1, "armatures": [{"name": "A", "bones": [{"name": "B", "parent": "B"}]}]}}"#,
        cause: Cause::UnknownRef,
        place: "/scene/armatures/0/bones/0/parent",
    },
    Case {
        text: r#"{"scene": {"version": 1, "armatures": [{"name": "A", "bones": [{"name": "B", "parent": "C"}]}],
            "objects": [{"name": "O"}]}}"#,
        cause: Cause::Missing,
        place: "/scene/objects/0/kind",
    },
    Case {
        text: r#"{"scene": {"version": 1, "pencils": [{"name": "P", "drawings": [{}],
            "layers": [{"name": "L", "keys": [{"frame": 0, "drawing": 0}, {"frame": 1, "drawing": -1}]}]}]}}"#,
        cause: Cause::UnknownRef,
        place: "/scene/pencils/0/layers/0/keys/1/drawing",
    },
    Case {
        text: r#"{"scene": {"version": 1, "pencils": [{"name": "P", "layers": [{"name": "L", "armature": "O", "bone": "B"}]}],
            "objects": [{"name": "O", "kind": "empty"}]}}"#,
        cause: Cause::WrongIdKind,
        place: "/scene/pencils/0/layers/0/armature",
    },
    Case {
        text: r#"{"scene": {"version": 1, "objects": [
            {"name": "A", "kind": "empty", "parent": "R", "parent_bone": "B"},
            {"name": "R", "kind": "armature", "data": "D"}]}}"#,
        cause: Cause::UnknownRef,
        place: "/scene/objects/0/parent_bone",
    },
    Case {
        text: r#"{"scene": {"version": 1, "objects": [{"name": "R", "kind": "armature", "data": "D"}]}}"#,
        cause: Cause::UnknownRef,
        place: "/scene/objects/0/data",
    },
    Case {
        text: r#"{"scene": {"version": 1, "armatures": [{"name": "D"}],
            "objects": [{"name": "R", "kind": "armature", "data": "D", "pose": [{"bone": "B"}]}]}}"#,
        cause: Cause::UnknownRef,
        place: "/scene/objects/0/pose/0/bone",
    },
    Case {
        text: r#"{"scene": {"version": 1, "pencils": [{"name": "P"}],
            "objects": [{"name": "A", "kind": "pencil", "data": "P",
                "modifiers": [{"name": "M", "kind": "mirror", "object": "B"}]}]}}"#,
        cause: Cause::UnknownRef,
        place: "/scene/objects/0/modifiers/0/object",
    },
    Case {
        text: r#"{"scene": {"version": 1, "objects": [{"name": "A", "kind": "empty"}],
            "drivers": [{"object": "A", "bone": "B", "channel": "loc.x", "kind": "min",
                "variables": [{"kind": "property", "pencil": "P", "channel": "loc.x"}]}]}}"#,
        cause: Cause::WrongIdKind,
        place: "/scene/drivers/0/channel",
    },
    Case {
        text: r#"{"scene": {"version": 1, "pencils": [{"name": "P"}],
            "objects": [{"name": "A", "kind": "empty"}],
            "drivers": [{"object": "A", "channel": "loc.x", "kind": "max",
                "variables": [{"kind": "property", "pencil": "P", "layer": "L", "channel": "offset.x"}]}]}}"#,
        cause: Cause::UnknownRef,
        place: "/scene/drivers/0/variables/0/layer",
    },
    Case {
        text: r#"{"scene": {"version": 1, "objects": [{"name": "A", "kind": "empty"}],
            "drivers": [{"object": "A", "channel": "loc.x", "kind": "average",
                "variables": [{"kind": "transform", "object": "A", "bone": "B", "channel": "scale"}]}]}}"#,
        cause: Cause::WrongIdKind,
        place: "/scene/drivers/0/variables/0/bone",
    },
];

// The cause and the place of the first fault of a text. One with no fault has a place of its own.
fn first_fault(alloc: Global, text: &str) -> Result<(Cause, String), NoMemory> {
    match read(alloc, text) {
        Err(SceneStop::Fault(fault)) => Ok((fault.cause, printed(alloc, &fault.place)?)),
        Err(SceneStop::NoMemory) => Err(NoMemory),
        Ok(_) => Ok((Cause::Missing, String::from_str(alloc, "no fault")?)),
    }
}

#[test]
fn the_first_fault_is_told_with_its_place(rt: HostRuntime) -> Result<(), Fail> {
    for case in FAULTS.as_slice() {
        let (cause, place) = first_fault(rt.alloc(), case.text)?;
        assert_eq!(rt; cause, case.cause);
        assert_eq!(rt; place.as_str(), case.place);
    }
    Ok(())
}
