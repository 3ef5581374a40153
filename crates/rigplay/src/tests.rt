//! Whole runs over sources and sinks in memory.
ghost use Rattle.std.specs.Prelude.{◌<◌};

mod graph;

use super::new_tallies;
use rig_io::{MemSink, MemSource, Tally};
use rig_play::{Status, run, run_plain};
use rig_scene::limits::MAX_INPUT_BYTES;
use std::alloc::{AllocError, Global};
use std::test::Fail;

const EMPTY_SCENE: &str =
    r#"{"scene":{"version":1},"script":{"tracks":[{"mode":"viewport","steps":[{"frame":1}]}]}}"#;

const EMPTY_SCENE_TEXT: &str =
    "turn 0 track 0 step 0 look\ntrack 0 viewport\nstep 0 frame 1 turn 0 ran 1 of 1\nframe 1 viewport\ncuts 0\nend\n";

const TWO_OBJECTS: &str = r#"{"scene":{"version":1,
    "actions":[{"name":"A","curves":[{"channel":"loc.x","keys":[
        {"frame":1,"value":10,"interp":"constant"},{"frame":5,"value":20,"interp":"constant"}]}]}],
    "objects":[{"name":"P","kind":"empty","action":"A"},{"name":"Q","kind":"empty","loc":[1,2,3]}]},
"script":{"tracks":[{"mode":"viewport","steps":[{"frame":1},
    {"edit":"set","object":"Q","channel":"loc.y","value":7},{"frame":1},{"frame":5}]}]}}"#;

const TWO_OBJECTS_TEXT: &str = "turn 0 track 0 step 0 look
turn 1 track 0 step 1 accepted
turn 2 track 0 step 2 look
turn 3 track 0 step 3 look
track 0 viewport
step 0 frame 1 turn 0 ran 6 of 6
frame 1 viewport
cuts 0
object 10 0 0 1000000 0 0 0 1000000 P
object 1 2 3 1000000 0 0 0 1000000 Q
end
step 1 accepted turn 1
step 2 frame 1 turn 2 ran 2 of 6
frame 1 viewport
cuts 0
object 10 0 0 1000000 0 0 0 1000000 P
object 1 7 3 1000000 0 0 0 1000000 Q
end
step 3 frame 5 turn 3 ran 4 of 6
frame 5 viewport
cuts 0
object 20 0 0 1000000 0 0 0 1000000 P
object 1 7 3 1000000 0 0 0 1000000 Q
end
";

const REFUSED_EDIT: &str = r#"{"scene":{"version":1,
    "actions":[{"name":"A","curves":[{"channel":"loc.x","keys":[
        {"frame":1,"value":10,"interp":"constant"},{"frame":5,"value":20,"interp":"constant"}]}]}],
    "objects":[{"name":"P","kind":"empty","action":"A"},{"name":"Q","kind":"empty","loc":[1,2,3]}]},
"script":{"tracks":[{"mode":"render","steps":[{"frame":1},
    {"edit":"set","object":"R","channel":"loc.y","value":7},{"frame":1},
    {"edit":"set","object":"Q","channel":"loc.y","value":1000000000001}]}]}}"#;

const REFUSED_EDIT_TEXT: &str = "turn 0 track 0 step 0 look
turn 1 track 0 step 1 refused E1
turn 2 track 0 step 2 look
turn 3 track 0 step 3 refused E5
track 0 render
step 0 frame 1 turn 0 ran 6 of 6
frame 1 render
cuts 0
object 10 0 0 1000000 0 0 0 1000000 P
object 1 2 3 1000000 0 0 0 1000000 Q
end
step 1 refused turn 1 E1
step 2 frame 1 turn 2 ran 0 of 6
frame 1 render
cuts 0
object 10 0 0 1000000 0 0 0 1000000 P
object 1 2 3 1000000 0 0 0 1000000 Q
end
step 3 refused turn 3 E5
";

const ARMATURE: &str =
    r#"{"scene":{"version":1,"objects":[{"name":"P","kind":"armature"}]},"script":{"tracks":[{"mode":"viewport","steps":[]}]}}"#;

const UNKNOWN_PARENT: &str = r#"{"scene":{"version":1,"objects":[
    {"name":"Root","kind":"empty"},{"name":"Child","kind":"empty","parent":"Rot"}]},"script":{"tracks":[]}}"#;

const BROKEN_LOCATION: &str = r#"{"scene":{"version":1,"objects":[
    {"name":"Root","kind":"empty"},{"name":"Child","kind":"empty","parent":"Rot","loc":[1.5,0,0]}]},"script":{}}"#;

const OTHER_VERSION: &str = r#"{"scene":{"version":7,"objects":[
    {"name":"Child","kind":"empty","parent":"Rot"}]},"script":{"tracks":3}}"#;

const MODELESS_FRAME: &str =
    r#"{"scene":{"version":1},"script":{"tracks":[{"steps":[{"frame":1}]}]}}"#;

const TWO_TRACKS: &str = r#"{"scene":{"version":1},"script":{"tracks":[{"steps":3},{"steps":3}]}}"#;

const CARRIED: &str = r#"{"scene":{"version":1,"objects":[
    {"name":"Root","kind":"empty"},{"name":"Child","kind":"empty","parent":"Root"}]},"script":{"tracks":[]}}"#;

const NO_TRACK: &str = r#"{"scene":{"version":1},"script":{}}"#;

const NULL_EDIT: &str =
    r#"{"scene":{"version":1},"script":{"tracks":[{"mode":"viewport","steps":[{"frame":1,"edit":null}]}]}}"#;

const NOT_JSON: &str = r#"{"scene":{"version":1},"script":{"tracks":[]}"#;

const CARRIED_CHILD: &str = r#"{"scene":{"version":1,
    "actions":[{"name":"Move","curves":[{"channel":"loc.x","keys":[{"frame":1,"value":0},{"frame":11,"value":10000000}]}]}],
    "objects":[{"name":"Root","kind":"empty","action":"Move"},
        {"name":"Child","kind":"empty","parent":"Root","loc":[2000000,0,0]}]}}"#;

const DRIVER_CYCLE: &str = r#"{"scene":{"version":1,
    "objects":[{"name":"A","kind":"empty"},{"name":"B","kind":"empty","parent":"A","loc":[1000000,0,0]}],
    "drivers":[{"object":"A","channel":"loc.x","kind":"sum","variables":[
        {"kind":"transform","object":"B","space":"world","channel":"loc.x"}]}]}}"#;

const OWN_CYCLE: &str = r#"{"scene":{"version":1,"objects":[{"name":"A","kind":"empty"}],
    "drivers":[{"object":"A","channel":"loc.x","kind":"sum","variables":[
        {"kind":"property","object":"A","channel":"loc.x"}]}]}}"#;

const BAD_SCRIPT: &str = r#"{"scene":{"version":1},"script":{"tracks":3}}"#;

const NO_SCENE: &str = r#"{"script":{"tracks":[]}}"#;

const USAGE: &str =
    "usage: rigplay <check|eval|play|rehearse> [--workers N] [--trace] [--size N]\n";

fn words_of(alloc: Global, words: &[&str]) -> Result<Vec<String>, AllocError> {
    let mut texts = Vec::new(alloc);
    for word in words {
        texts.push(String::from_str(alloc, word)?)?;
    }
    Ok(texts)
}

// How a run ended, what it wrote, and how many ticks its first tally has.
#[derive(Drop)]
struct Ended {
    status: Status,
    written: Vec<u8>,
    ticks: u64,
}

fn run_on(alloc: Global, words: &[&str], source: MemSource, sink: MemSink) -> Result<Ended, Fail> {
    let mut source = source;
    let mut sink = sink;
    let words = words_of(alloc, words)?;
    let mut tallies = new_tallies(alloc)?;
    let status = run(alloc, &words, &mut source, &mut sink, &mut tallies);
    let written = sink.written().to_vec(alloc)?;
    let mut ticks = 0u64;
    for tally in &tallies {
        ticks = ticks.saturating_add(tally.count());
    }
    Ok(Ended {
        status,
        written,
        ticks,
    })
}

fn source_of(alloc: Global, text: &str, most: usize) -> Result<MemSource, AllocError>
    requires { 0 < most }
{
    Ok(MemSource::new(text.as_bytes().to_vec(alloc)?, most, Vec::new(alloc)))
}

#[test]
fn worked_inputs_end_with_their_texts(rt: HostRuntime) -> Result<(), Fail> {
    let alloc = rt.alloc();
    for (input, text, ticks) in [
        (EMPTY_SCENE, EMPTY_SCENE_TEXT, 1),
        (TWO_OBJECTS, TWO_OBJECTS_TEXT, 12),
        (REFUSED_EDIT, REFUSED_EDIT_TEXT, 6),
        (NULL_EDIT, EMPTY_SCENE_TEXT, 1),
        (NO_TRACK, "", 0),
    ] {
        let sink = MemSink::new(alloc, 4096, 7, Vec::new(alloc))?;
        let words = ["rigplay", "eval"];
        let ended = run_on(alloc, words.as_slice(), source_of(alloc, input, 3)?, sink)?;
        assert_eq!(rt; ended.status, Status::Ok, "{input}");
        assert_eq!(rt; ended.written.as_slice(), text.as_bytes(), "{input}");
        assert_eq!(rt; ended.ticks, ticks, "{input}");
    }
    Ok(())
}

#[test]
fn what_is_wrong_with_an_input_has_its_line(rt: HostRuntime) -> Result<(), Fail> {
    let alloc = rt.alloc();
    for (input, status, text) in [
        (
            ARMATURE,
            Status::BadScene,
            "fault BadScene S1 /scene/objects/0/data\n",
        ),
        (
            UNKNOWN_PARENT,
            Status::BadScene,
            "fault BadScene S7 /scene/objects/1/parent\n",
        ),
        (
            BROKEN_LOCATION,
            Status::BadScene,
            "fault BadScene S3 /scene/objects/1/loc/0\n",
        ),
        (
            OTHER_VERSION,
            Status::BadScene,
            "fault BadScene S11 /scene/version\n",
        ),
        (
            MODELESS_FRAME,
            Status::BadScript,
            "fault BadScript S2 /script/tracks/0/steps/0/frame\n",
        ),
        (
            TWO_TRACKS,
            Status::BadScript,
            "fault BadScript S10 /script/tracks\n",
        ),
        ("[]", Status::BadScene, "fault BadScene S2\n"),
        (NOT_JSON, Status::NotJson, "fault NotJson\n"),
        (CARRIED, Status::Unbuilt, "fault Unbuilt\n"),
    ] {
        let sink = MemSink::new(alloc, 4096, 7, Vec::new(alloc))?;
        let words = ["rigplay", "eval", "--trace"];
        let ended = run_on(alloc, words.as_slice(), source_of(alloc, input, 3)?, sink)?;
        assert_eq!(rt; ended.status, status, "{input}");
        assert_eq!(rt; ended.written.as_slice(), text.as_bytes(), "{input}");
        assert_eq!(rt; ended.ticks, 0, "{input}");
    }
    Ok(())
}

// How a run ends whose words are those of a line, over the empty scene.
fn end_of_line(alloc: Global, line: &str) -> Result<Ended, Fail> {
    let mut words = Vec::new(alloc);
    for word in line.split(' ') {
        words.push(word)?;
    }
    let sink = MemSink::new(alloc, 4096, 7, Vec::new(alloc))?;
    run_on(alloc, &words, source_of(alloc, EMPTY_SCENE, 3)?, sink)
}

#[test]
fn options_stand_on_either_side_of_the_command(rt: HostRuntime) -> Result<(), Fail> {
    let alloc = rt.alloc();
    for line in [
        "rigplay eval",
        "rigplay --workers 64 eval",
        "rigplay eval --trace --size=64",
        "rigplay --trace -- eval",
    ] {
        let ended = end_of_line(alloc, line)?;
        assert_eq!(rt; ended.status, Status::Ok, "{line}");
        assert_eq!(rt;
            ended.written.as_slice(),
            EMPTY_SCENE_TEXT.as_bytes(),
            "{line}"
        );
    }
    Ok(())
}

#[test]
fn other_words_get_the_usage_line(rt: HostRuntime) -> Result<(), Fail> {
    let alloc = rt.alloc();
    for line in [
        "rigplay",
        "rigplay walk",
        "rigplay play",
        "rigplay rehearse",
        "rigplay Eval",
        "rigplay eval --workers 65",
        "rigplay eval --workers 0",
        "rigplay eval eval",
        "rigplay eval --trace --trace",
        "rigplay --help",
    ] {
        let ended = end_of_line(alloc, line)?;
        assert_eq!(rt; ended.status, Status::Usage, "{line}");
        assert_eq!(rt; ended.written.as_slice(), USAGE.as_bytes(), "{line}");
        assert_eq!(rt; ended.ticks, 0, "{line}");
    }
    Ok(())
}

#[test]
fn a_check_tells_counts_and_cut_reads(rt: HostRuntime) -> Result<(), Fail> {
    let alloc = rt.alloc();
    for (input, status, text) in [
        (
            CARRIED_CHILD,
            Status::Ok,
            "objects 2\noperations 6\nlinks 5\ncuts 0\n",
        ),
        (
            DRIVER_CYCLE,
            Status::Ok,
            "objects 2\noperations 6\nlinks 5\ncuts 1\ncut world A -> world B\n",
        ),
        (
            OWN_CYCLE,
            Status::Ok,
            "objects 1\noperations 4\nlinks 3\ncuts 1\ncut channel object A loc.x -> channel object A loc.x\n",
        ),
        (
            BAD_SCRIPT,
            Status::Ok,
            "objects 0\noperations 1\nlinks 0\ncuts 0\n",
        ),
        (NO_SCENE, Status::BadScene, "fault BadScene S1 /scene\n"),
        (
            UNKNOWN_PARENT,
            Status::BadScene,
            "fault BadScene S7 /scene/objects/1/parent\n",
        ),
        (NOT_JSON, Status::NotJson, "fault NotJson\n"),
    ] {
        let sink = MemSink::new(alloc, 4096, 7, Vec::new(alloc))?;
        let words = ["rigplay", "check"];
        let ended = run_on(alloc, words.as_slice(), source_of(alloc, input, 3)?, sink)?;
        assert_eq!(rt; ended.status, status, "{input}");
        assert_eq!(rt; ended.written.as_slice(), text.as_bytes(), "{input}");
        assert_eq!(rt; ended.ticks, 0, "{input}");
    }
    Ok(())
}

#[test]
fn one_byte_too_many_is_too_long(rt: HostRuntime) -> Result<(), Fail> {
    let alloc = rt.alloc();
    let mut spaces = Vec::new(alloc);
    spaces.resize(MAX_INPUT_BYTES + 1, b' ')?;
    let source = MemSource::new(spaces, 65_536, Vec::new(alloc));
    let sink = MemSink::new(alloc, 4096, 100, Vec::new(alloc))?;
    let ended = run_on(alloc, ["rigplay", "eval"].as_slice(), source, sink)?;
    assert_eq!(rt; ended.status, Status::TooLong);
    assert_eq!(rt; ended.written.as_slice(), b"fault TooLong\n".as_slice());
    Ok(())
}

#[test]
fn a_failed_read_writes_nothing(rt: HostRuntime) -> Result<(), Fail> {
    let alloc = rt.alloc();
    let mut fails = Vec::new(alloc);
    fails.push(0)?;
    let bytes = EMPTY_SCENE.as_bytes().to_vec(alloc)?;
    let source = MemSource::new(bytes, 100, fails);
    let sink = MemSink::new(alloc, 4096, 100, Vec::new(alloc))?;
    let ended = run_on(alloc, ["rigplay", "eval"].as_slice(), source, sink)?;
    assert_eq!(rt; ended.status, Status::ReadFault);
    assert_eq!(rt; ended.written.len(), 0);
    Ok(())
}

#[test]
fn a_failed_write_leaves_a_prefix(rt: HostRuntime) -> Result<(), Fail> {
    let alloc = rt.alloc();
    let mut fails = Vec::new(alloc);
    fails.push(1)?;
    let sink = MemSink::new(alloc, 4096, 8, fails)?;
    let source = source_of(alloc, EMPTY_SCENE, 100)?;
    let ended = run_on(alloc, ["rigplay", "eval"].as_slice(), source, sink)?;
    assert_eq!(rt; ended.status, Status::WriteFault);
    assert_eq!(rt; ended.written.as_slice(), b"turn 0 t".as_slice());
    Ok(())
}

#[test]
fn the_plain_run_plays_too(rt: HostRuntime) -> Result<(), Fail> {
    let alloc = rt.alloc();
    let words = words_of(alloc, ["rigplay", "eval"].as_slice())?;
    let mut source = source_of(alloc, EMPTY_SCENE, 100)?;
    let mut sink = MemSink::new(alloc, 4096, 100, Vec::new(alloc))?;
    let mut tallies = new_tallies(alloc)?;
    let status = run_plain(alloc, &words, &mut source, &mut sink, &mut tallies);
    assert_eq!(rt; status, Status::Ok);
    assert_eq!(rt; status.code(), 0);
    assert_eq!(rt; sink.written(), EMPTY_SCENE_TEXT.as_bytes());
    Ok(())
}
