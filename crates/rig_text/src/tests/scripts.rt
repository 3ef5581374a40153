//! Scripts that are read from JSON: what they give, and the first fault of each.
use crate::fault_text;
use rig_io::NoMemory;
use rig_scenejson::SceneStop;
use rig_scriptjson::script_of;
use serde_json::Value;
use std::alloc::Global;
use std::test::Fail;

/// A script of two tracks, the first of which owns the viewport.
const TWO_TRACKS: &str = r#"{"script": {"tracks": [
    {"mode": "viewport", "steps": [
        {"edit": "set", "object": "Child", "channel": "loc.y", "value": -3},
        {"frame": 6, "full": true},
        {"edit": null, "frame": -1000000}]},
    {"steps": [{"edit": "remove", "object": "Root", "frame": "ignored"}]}]}}"#;

// What is read of the text, as a line: the fault, or how many tracks there are.
fn line_of(alloc: Global, text: &str, most: u32) -> Result<Vec<u8>, Fail> {
    let input = Value::from_str(alloc, text)?;
    match script_of(alloc, &input, most) {
        Ok(script) => Ok(Vec::from_slice(alloc, &[b'0' + script.tracks.len().min(9) as u8])?),
        Err(SceneStop::NoMemory) => Err(NoMemory.into()),
        Err(SceneStop::Fault(fault)) => Ok(fault_text(alloc, &fault, false)?),
    }
}

/// A script, how many tracks it may have, and the line that is wanted.
struct Case {
    text: &'static str,
    most: u32,
    line: &'static str,
}

const FAULTS: [Case; 12] = [
    Case {
        text: r#"[]"#,
        most: 16,
        line: "fault BadScript S2\n",
    },
    Case {
        text: r#"{"script": null}"#,
        most: 16,
        line: "fault BadScript S1 /script\n",
    },
    Case {
        text: r#"{"script": {"tracks": [7, 7]}}"#,
        most: 1,
        line: "fault BadScript S10 /script/tracks\n",
    },
    Case {
        text: r#"{"script": {"tracks": [{"mode": "render"}, {"mode": "render", "steps": 7}]}}"#,
        most: 16,
        line: "fault BadScript S6 /script/tracks/1/mode\n",
    },
    Case {
        text: r#"{"script": {"tracks": [{"mode": "both"}]}}"#,
        most: 16,
        line: "fault BadScript S4 /script/tracks/0/mode\n",
    },
    Case {
        text: r#"{"script": {"tracks": [{"steps": [{"frame": "six"}]}]}}"#,
        most: 16,
        line: "fault BadScript S2 /script/tracks/0/steps/0/frame\n",
    },
    Case {
        text: r#"{"script": {"tracks": [{"mode": "viewport", "steps": [{"frame": 1000001}]}]}}"#,
        most: 16,
        line: "fault BadScript S4 /script/tracks/0/steps/0/frame\n",
    },
    Case {
        text: r#"{"script": {"tracks": [{"steps": [{"frame": null}]}]}}"#,
        most: 16,
        line: "fault BadScript S1 /script/tracks/0/steps/0/edit\n",
    },
    Case {
        text: r#"{"script": {"tracks": [{"steps": [{"edit": "sett", "value": 1.5}]}]}}"#,
        most: 16,
        line: "fault BadScript S4 /script/tracks/0/steps/0/edit\n",
    },
    Case {
        text: r#"{"script": {"tracks": [{"steps": [
            {"edit": "point", "pencil": "P", "drawing": 0, "stroke": 0, "point": 0, "to": [1, 2.5, "z"]}]}]}}"#,
        most: 16,
        line: "fault BadScript S3 /script/tracks/0/steps/0/to/1\n",
    },
    Case {
        text: r#"{"script": {"tracks": [{"steps": [{"edit": "flag", "on": true}]}]}}"#,
        most: 16,
        line: "fault BadScript S1 /script/tracks/0/steps/0/object\n",
    },
    Case {
        text: r#"{"script": {"tracks": [{"steps": [
            {"edit": "driver", "object": "O", "channel": "loc.x", "kind": "sum", "variables": []}]}]}}"#,
        most: 16,
        line: "fault BadScript S10 /script/tracks/0/steps/0/variables\n",
    },
];

// The index of the first script whose line is another.
fn first_other(alloc: Global, cases: &[Case]) -> Result<Option<usize>, Fail> {
    for (index, case) in cases.iter().enumerate() {
        let line = line_of(alloc, case.text, case.most)?;
        if line.as_slice() != case.line.as_bytes() {
            return Ok(Some(index));
        }
    }
    Ok(None)
}

#[test]
fn the_first_fault_of_a_script_is_told_with_its_place(rt: HostRuntime) -> Result<(), Fail> {
    assert_eq!(rt; first_other(rt.alloc(), FAULTS.as_slice())?, None);
    Ok(())
}

#[test]
fn a_script_has_its_tracks(rt: HostRuntime) -> Result<(), Fail> {
    assert_eq!(rt;
        line_of(rt.alloc(), TWO_TRACKS, 16)?.as_slice(),
        b"2".as_slice()
    );
    assert_eq!(rt;
        line_of(rt.alloc(), r#"{"script": {}}"#, 1)?.as_slice(),
        b"0".as_slice()
    );
    Ok(())
}

// A script of so many full frames.
fn full_frames(alloc: Global, count: usize) -> Result<String, Fail> {
    let mut text = String::from_str(
        alloc,
        r#"{"script": {"tracks": [{"mode": "render", "steps": [{"frame": 0}"#,
    )?;
    for _i in 0..count {
        text.push_str(r#", {"frame": 1, "full": true}"#)?;
    }
    text.push_str("]}]}}")?;
    Ok(text)
}

#[test]
fn sixteen_frames_may_be_full(rt: HostRuntime) -> Result<(), Fail> {
    let text = full_frames(rt.alloc(), 16)?;
    assert_eq!(rt;
        line_of(rt.alloc(), text.as_str(), 1)?.as_slice(),
        b"1".as_slice()
    );
    let text = full_frames(rt.alloc(), 17)?;
    assert_eq!(rt;
        line_of(rt.alloc(), text.as_str(), 1)?.as_slice(),
        b"fault BadScript S10 /script/tracks/0/steps/17/full\n".as_slice()
    );
    Ok(())
}
