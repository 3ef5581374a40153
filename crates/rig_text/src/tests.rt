//! The lines of faults, byte by byte.
mod check;
mod plays;
mod scripts;

use crate::fault_text;
use rig_io::{List, NoMemory};
use rig_scene::{Channel, Path, Scene};
use rig_scenejson::{Cause, Fault, Hop, Member, SceneStop, field, name, number, path, scene_of};
use serde_json::Value;
use std::alloc::Global;
use std::test::Fail;

fn line_of(alloc: Global, cause: Cause, hops: &[Hop], scene: bool) -> Result<Vec<u8>, Fail> {
    let fault = Fault {
        cause,
        place: List::from(Vec::from_slice(alloc, hops)?),
    };
    Ok(fault_text(alloc, &fault, scene)?)
}

#[test]
fn a_fault_is_a_line(rt: HostRuntime) -> Result<(), Fail> {
    let parent = [
        Hop::Member(Member::Scene),
        Hop::Member(Member::Objects),
        Hop::Index(1),
        Hop::Member(Member::Parent),
    ];
    let line = line_of(rt.alloc(), Cause::UnknownRef, &parent, true)?;
    assert_eq!(rt;
        line.as_slice(),
        b"fault BadScene S7 /scene/objects/1/parent\n".as_slice()
    );
    let step = [
        Hop::Member(Member::Script),
        Hop::Member(Member::Tracks),
        Hop::Index(0),
        Hop::Member(Member::Steps),
        Hop::Index(4_095),
        Hop::Member(Member::Frame),
    ];
    let line = line_of(rt.alloc(), Cause::WrongKind, &step, false)?;
    assert_eq!(rt;
        line.as_slice(),
        b"fault BadScript S2 /script/tracks/0/steps/4095/frame\n".as_slice()
    );
    let line = line_of(rt.alloc(), Cause::WrongKind, &[], true)?;
    assert_eq!(rt; line.as_slice(), b"fault BadScene S2\n".as_slice());
    let version = [Hop::Member(Member::Scene), Hop::Member(Member::Version)];
    let line = line_of(rt.alloc(), Cause::Version, &version, true)?;
    assert_eq!(rt;
        line.as_slice(),
        b"fault BadScene S11 /scene/version\n".as_slice()
    );
    Ok(())
}

// Two empties, the first with an action of one curve, and what is put in place of parts of their text.
fn input_of(alloc: Global, version: &str, parent: &str, loc: &str) -> Result<String, Fail> {
    Ok(format!(in alloc;
        r#"{{"scene":{{"version":{version},
            "actions":[{{"name":"Move","curves":[
                {{"channel":"loc.x","keys":[{{"frame":1,"value":0}},{{"frame":11,"value":10000000}}]}}]}}],
            "objects":[{{"name":"Root","kind":"empty","action":"Move"}},
                {{"name":"Child","kind":"empty","parent":"{parent}","loc":{loc}}}]}}}}"#
    )?)
}

fn scene_in(alloc: Global, text: &str) -> Result<Scene, Fail> {
    let input = Value::from_str(alloc, text)?;
    match scene_of(alloc, &input) {
        Ok(scene) => Ok(scene),
        Err(SceneStop::NoMemory) => Err(NoMemory.into()),
        Err(SceneStop::Fault(fault)) => Err(Fail::new(fault.cause.code())),
    }
}

fn first_line_of(alloc: Global, input: &str) -> Result<Vec<u8>, Fail> {
    let value = Value::from_str(alloc, input)?;
    match scene_of(alloc, &value) {
        Ok(_) => Ok(Vec::new(alloc)),
        Err(SceneStop::NoMemory) => Err(NoMemory.into()),
        Err(SceneStop::Fault(fault)) => Ok(fault_text(alloc, &fault, true)?),
    }
}

/// What an input says of its version, and of its second object; and the line of its first fault.
#[derive(Clone, Copy, Drop)]
struct Case {
    version: &'static str,
    parent: &'static str,
    loc: &'static str,
    line: &'static str,
}

const CASES: [Case; 7] = [
    Case {
        version: "1",
        parent: "Root",
        loc: "[2000000,0,0]",
        line: "",
    },
    Case {
        version: "1",
        parent: "Rot",
        loc: "[2000000,0,0]",
        line: "fault BadScene S7 /scene/objects/1/parent\n",
    },
    Case {
        version: "1",
        parent: "Root",
        loc: "[1.5,0,0]",
        line: "fault BadScene S3 /scene/objects/1/loc/0\n",
    },
    Case {
        version: "7",
        parent: "Root",
        loc: "[2000000,0,0]",
        line: "fault BadScene S11 /scene/version\n",
    },
    Case {
        version: "1099511627776",
        parent: "Root",
        loc: "[0,0,0]",
        line: "fault BadScene S11 /scene/version\n",
    },
    Case {
        version: "7.0",
        parent: "Rot",
        loc: "[0,0]",
        line: "fault BadScene S3 /scene/version\n",
    },
    Case {
        version: "1",
        parent: "Rot",
        loc: "[0,0]",
        line: "fault BadScene S2 /scene/objects/1/loc\n",
    },
];

#[test]
fn the_first_fault_of_a_scene_is_told(rt: HostRuntime) -> Result<(), Fail> {
    for case in CASES.as_slice() {
        let input = input_of(rt.alloc(), case.version, case.parent, case.loc)?;
        let found = first_line_of(rt.alloc(), input.as_str())?;
        assert_eq!(rt; found.as_slice(), case.line.as_bytes());
    }
    Ok(())
}

#[test]
fn single_members_are_read(rt: HostRuntime) -> Result<(), Fail> {
    let text = r#"{"count": 5, "frame": null, "bone": "Hip", "channel": "rot.w"}"#;
    let record = Value::from_str(rt.alloc(), text)?;
    assert!(rt; field(&record, Member::Frame).is_none());
    if let Some(count) = field(&record, Member::Count) {
        assert_eq!(rt; number(count, 1, 64), Ok(5));
        assert_eq!(rt; number(count, 6, 64), Err(Cause::OutOfRange));
        assert!(rt; name(rt.alloc(), count).is_err());
    } else {
        assert!(rt; false, "no count");
    }
    if let Some(bone) = field(&record, Member::Bone) {
        assert!(rt; is_named(rt.alloc(), bone, "Hip"));
    }
    assert!(rt; is_bone_path(rt.alloc(), &record, "Hip"));
    Ok(())
}

fn is_named(alloc: Global, value: &Value, text: &str) -> bool {
    match name(alloc, value) {
        Ok(name) => name.as_str() == text,
        Err(_) => false,
    }
}

fn is_bone_path(alloc: Global, record: &Value, bone: &str) -> bool {
    match path(alloc, record) {
        Ok(Path::Bone(name, Channel::RotW)) => name.as_str() == bone,
        Ok(_) | Err(_) => false,
    }
}
