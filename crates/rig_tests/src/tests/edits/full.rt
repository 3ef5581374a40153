//! Lists at their limits, which take no more.
use super::seen::{Part, Seen, number_of};
use super::words::{Block, Effect, Id, Reading, Way, Words};
use super::{SCENE, cause_of, code_of, scene_in};
use rig_edits::EditCause;
use rig_io::NoMemory;
use rig_scene::{Axis, Channel, DriverKind, Interp};
use std::alloc::Global;
use std::test::Fail;

const NAMES: [&str; 8] = ["A", "B", "C", "D", "E", "F", "G", "H"];

// The cause of one more modifier, behind some that are added before it, and how many there are afterwards.
fn one_more_modifier(
    alloc: Global,
    before: &[&'static str],
) -> Result<(Option<EditCause>, Option<i64>), Fail> {
    let mut scene = scene_in(alloc, SCENE)?;
    for name in before {
        let edit = Words::AddModifier("Blank", *name, Effect::Mirror);
        if let Some(cause) = cause_of(alloc, &mut scene, edit)? {
            return Err(Fail::new(cause.code()));
        }
    }
    let edit = Words::AddModifier("Blank", "I", Effect::Mirror);
    let cause = cause_of(alloc, &mut scene, edit)?;
    Ok((cause, number_of(&scene, Seen::Modifiers("Blank"))))
}

#[test]
fn a_ninth_modifier_is_refused(rt: HostRuntime) -> Result<(), Fail> {
    let (eighth, count) = one_more_modifier(rt.alloc(), &NAMES[1..])?;
    assert!(rt; eighth == None && count == Some(8));
    let (ninth, count) = one_more_modifier(rt.alloc(), NAMES.as_slice())?;
    let full = EditCause::Full { count: 8, limit: 8 };
    assert!(rt; ninth == Some(full) && count == Some(8));
    Ok(())
}

// The cause for which an edit of a scene is refused.
fn cause_in(alloc: Global, text: &str, edit: Words) -> Result<Option<EditCause>, Fail> {
    let mut scene = scene_in(alloc, text)?;
    Ok(cause_of(alloc, &mut scene, edit)?)
}

/// How many of something a scene has, which is the most.
#[derive(Clone, Copy)]
struct Most {
    limit: u32,
    /// A number that one more would change.
    seen: Seen,
    number: i64,
}

// Whether an edit of a scene is refused as there is no room for one more, and nothing is added.
fn is_full(alloc: Global, text: &str, edit: Words, most: Most) -> Result<bool, Fail> {
    let mut scene = scene_in(alloc, text)?;
    let cause = cause_of(alloc, &mut scene, edit)?;
    let full = EditCause::Full {
        count: most.limit,
        limit: most.limit,
    };
    let is_same = number_of(&scene, most.seen) == Some(most.number);
    Ok(cause == Some(full) && code_of(cause) == "E9" && is_same)
}

// So many items with a comma between each two, each with its index between two texts.
fn items(alloc: Global, count: u32, before: &str, after: &str) -> Result<String, NoMemory> {
    let mut text = String::new(alloc);
    for index in 0..count {
        if index > 0 {
            text.push_str(",")?;
        }
        push_item(alloc, &mut text, before, index, after)?;
    }
    Ok(text)
}

fn push_item(
    alloc: Global,
    text: &mut String,
    before: &str,
    index: u32,
    after: &str,
) -> Result<(), NoMemory> {
    let number = format!(in alloc; "{index}")?;
    text.push_str(before)?;
    text.push_str(number.as_str())?;
    text.push_str(after)?;
    Ok(())
}

// One curve with so many keys.
fn keys(alloc: Global, count: u32) -> Result<String, NoMemory> {
    let keys = items(alloc, count, r#"{"frame": "#, r#", "value": 0}"#)?;
    Ok(format!(in alloc;
        r#"{{"scene": {{"version": 1, "actions": [{{"name": "Move", "curves": [{{"channel": "loc.x", "keys": [{keys}]}}]}}]}}}}"#
    )?)
}

#[test]
fn a_full_scene_takes_no_more_keys(rt: HostRuntime) -> Result<(), Fail> {
    let text = keys(rt.alloc(), 65_536)?;
    let x = Way::Own(Channel::LocX);
    let more = Words::SetKey("Move", x, -1, 0, Interp::Linear);
    let most = Most {
        limit: 65_536,
        seen: Seen::Part(Part::Keys(0)),
        number: 65_536,
    };
    assert!(rt; is_full(rt.alloc(), text.as_str(), more, most)?);
    let replaced = Words::SetKey("Move", x, 65_535, 1, Interp::Linear);
    assert!(rt; cause_in(rt.alloc(), text.as_str(), replaced)? == None);
    Ok(())
}

// One layer with so many keys.
fn layer_keys(alloc: Global, count: u32) -> Result<String, NoMemory> {
    let keys = items(alloc, count, r#"{"frame": "#, r#", "drawing": 0}"#)?;
    Ok(format!(in alloc;
        r#"{{"scene": {{"version": 1, "pencils": [{{"name": "Ink", "drawings": [{{}}],
            "layers": [{{"name": "Lines", "keys": [{keys}]}}]}}]}}}}"#
    )?)
}

#[test]
fn a_full_scene_takes_no_more_layer_keys(rt: HostRuntime) -> Result<(), Fail> {
    let text = layer_keys(rt.alloc(), 16_384)?;
    let most = Most {
        limit: 16_384,
        seen: Seen::Part(Part::LayerKeys(0)),
        number: 16_384,
    };
    let more = Words::SetLayerKey("Ink", "Lines", -1, 0);
    assert!(rt; is_full(rt.alloc(), text.as_str(), more, most)?);
    let replaced = Words::SetLayerKey("Ink", "Lines", 0, 0);
    assert!(rt; cause_in(rt.alloc(), text.as_str(), replaced)? == None);
    Ok(())
}

// A driver of one channel of each of so many objects.
fn drivers_of(alloc: Global, count: u32, channel: Channel) -> Result<String, NoMemory> {
    let after = format!(in alloc;
        r#"", "channel": "{}", "kind": "sum", "variables": [{{"kind": "property", "object": "0", "channel": "loc.x"}}]}}"#,
        channel.word()
    )?;
    items(alloc, count, r#"{"object": ""#, after.as_str())
}

// So many objects, with a driver of each of their eight channels.
fn drivers(alloc: Global, count: u32) -> Result<String, NoMemory> {
    let objects = items(alloc, count, r#"{"name": ""#, r#"", "kind": "empty"}"#)?;
    let mut drivers = String::new(alloc);
    for channel in Channel::all().as_slice() {
        if !drivers.is_empty() {
            drivers.push_str(",")?;
        }
        drivers.push_str(drivers_of(alloc, count, *channel)?.as_str())?;
    }
    Ok(format!(in alloc;
        r#"{{"scene": {{"version": 1, "pencils": [{{"name": "Ink", "layers": [{{"name": "Lines"}}]}}],
            "objects": [{objects}], "drivers": [{drivers}]}}}}"#
    )?)
}

#[test]
fn a_full_scene_takes_no_more_drivers(rt: HostRuntime) -> Result<(), Fail> {
    let text = drivers(rt.alloc(), 1_024)?;
    let most = Most {
        limit: 8_192,
        seen: Seen::Drivers,
        number: 8_192,
    };
    let reading = Reading::World("1", Channel::Scale);
    let more = Words::SetDriver(
        Id::Pencil("Ink"),
        Way::Layer("Lines", Axis::X),
        DriverKind::Sum,
        reading,
    );
    assert!(rt; is_full(rt.alloc(), text.as_str(), more, most)?);
    let replaced = Words::SetDriver(
        Id::Object("1023"),
        Way::Own(Channel::Scale),
        DriverKind::Max,
        reading,
    );
    assert!(rt; cause_in(rt.alloc(), text.as_str(), replaced)? == None);
    Ok(())
}

// So many objects, each with the words of its kind.
fn objects(alloc: Global, count: u32, kind: &str) -> Result<String, NoMemory> {
    let after = format!(in alloc; r#"", {kind}}}"#)?;
    let objects = items(alloc, count, r#"{"name": ""#, after.as_str())?;
    let bones = items(alloc, 256, r#"{"name": ""#, r#""}"#)?;
    Ok(format!(in alloc;
        r#"{{"scene": {{"version": 1, "armatures": [{{"name": "Arm", "bones": [{bones}]}}, {{"name": "None"}}],
            "pencils": [{{"name": "Ink"}}], "objects": [{objects}]}}}}"#
    )?)
}

#[test]
fn a_full_scene_takes_no_more_objects(rt: HostRuntime) -> Result<(), Fail> {
    let text = objects(rt.alloc(), 1_024, r#""kind": "empty""#)?;
    let most = Most {
        limit: 1_024,
        seen: Seen::Objects,
        number: 1_024,
    };
    let more = Words::AddObject("New", Block::Empty);
    assert!(rt; is_full(rt.alloc(), text.as_str(), more, most)?);
    Ok(())
}

#[test]
fn a_full_scene_takes_no_more_pencil_objects(rt: HostRuntime) -> Result<(), Fail> {
    let text = objects(rt.alloc(), 64, r#""kind": "pencil", "data": "Ink""#)?;
    let most = Most {
        limit: 64,
        seen: Seen::Objects,
        number: 64,
    };
    let more = Words::AddObject("New", Block::Pencil("Ink"));
    assert!(rt; is_full(rt.alloc(), text.as_str(), more, most)?);
    let other = Words::AddObject("New", Block::Empty);
    assert!(rt; cause_in(rt.alloc(), text.as_str(), other)? == None);
    Ok(())
}

#[test]
fn a_full_scene_takes_no_more_bones(rt: HostRuntime) -> Result<(), Fail> {
    let text = objects(rt.alloc(), 64, r#""kind": "armature", "data": "Arm""#)?;
    let most = Most {
        limit: 16_384,
        seen: Seen::Objects,
        number: 64,
    };
    let more = Words::AddObject("New", Block::Armature("Arm"));
    assert!(rt; is_full(rt.alloc(), text.as_str(), more, most)?);
    let boneless = Words::AddObject("New", Block::Armature("None"));
    assert!(rt; cause_in(rt.alloc(), text.as_str(), boneless)? == None);
    Ok(())
}
