//! Names and values that are added once, and once more.
use super::*;
use rig_io::NoMemory;
use std::alloc::Global;
use std::test::Fail;

/// A name, its number among some objects, or neither.
#[derive(Drop, PartialEq, Eq, Hash)]
enum Target {
    Name(String),
    Object { index: u32, channel: String },
    World,
}

fn channel_of(alloc: Global, index: u32, channel: &str) -> Result<Target, NoMemory> {
    Ok(Target::Object {
        index,
        channel: String::from_str(alloc, channel)?,
    })
}

#[test]
fn names_are_found_where_they_were_added(rt: HostRuntime) -> Result<(), Fail> {
    let mut names = Names::new(rt.alloc());
    assert!(rt; names.is_empty());
    let cases = [
        ("root", true, 1),
        ("spine", true, 2),
        ("root", false, 2),
        ("Root", true, 3),
        ("", true, 4),
        ("", false, 4),
        ("sp\u{ef}ne", true, 5),
        ("spine", false, 5),
    ];
    for (text, added, len) in cases {
        assert!(rt; names.len() < MAX_NAMES);
        assert_eq!(rt; names.add(rt.alloc(), text)?, added, "{text}");
        assert_eq!(rt; names.len(), len, "{text}");
        assert!(rt; names.contains(text), "{text}");
    }
    let indices = [
        ("root", Some(0)),
        ("spine", Some(1)),
        ("Root", Some(2)),
        ("", Some(3)),
        ("sp\u{ef}ne", Some(4)),
        ("tail", None),
        ("root ", None),
    ];
    for (text, index) in indices {
        assert_eq!(rt; names.index_of(text), index, "{text}");
        assert_eq!(rt; names.contains(text), index.is_some(), "{text}");
    }
    assert!(rt; !names.is_empty());
    assert_eq!(rt; names.get(1), Some("spine"));
    assert_eq!(rt; names.get(5), None);
    Ok(())
}

#[test]
fn values_are_distinct_where_a_part_differs(rt: HostRuntime) -> Result<(), Fail> {
    let mut targets = Distinct::new(rt.alloc());
    let cases = [
        (Target::World, true),
        (Target::Name(String::from_str(rt.alloc(), "root")?), true),
        (Target::Name(String::from_str(rt.alloc(), "root")?), false),
        (channel_of(rt.alloc(), 0, "root")?, true),
        (channel_of(rt.alloc(), 1, "root")?, true),
        (channel_of(rt.alloc(), 1, "spine")?, true),
        (channel_of(rt.alloc(), 0, "root")?, false),
        (Target::World, false),
    ];
    for (target, added) in cases {
        assert_eq!(rt; targets.add(target)?, added);
    }
    Ok(())
}
