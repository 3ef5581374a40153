//! Several edits after one another: what is replaced in its place, what goes with an object, and what stays.
use super::numbers_after;
use super::seen::{Part, Seen};
use super::set::TO;
use super::words::{Block, Carrier, Effect, Id, Reading, Way, Words, edit_of};
use rig_edits::Edit;
use rig_io::NoMemory;
use rig_scene::{Axis, Channel, DriverKind, Interp, Mode};
use std::alloc::Global;
use std::test::Fail;

const CHILD: Words = Words::SetDriver(
    Id::Object("Child"),
    Way::Own(Channel::LocY),
    DriverKind::Max,
    Reading::World("Root", Channel::Scale),
);

const ROOT: Words = Words::SetDriver(
    Id::Object("Root"),
    Way::Own(Channel::Scale),
    DriverKind::Average,
    Reading::World("Source", Channel::LocX),
);

#[test]
fn a_driver_is_replaced_in_its_place(rt: HostRuntime) -> Result<(), Fail> {
    let seen = [
        Seen::Drivers,
        Seen::Driven(0),
        Seen::IsDriverKind(0, DriverKind::Sum),
        Seen::IsDriverKind(0, DriverKind::Max),
        Seen::Driven(1),
    ];
    let before = numbers_after(rt.alloc(), &[], &seen)?;
    assert_eq!(rt;
        before.as_slice(),
        [Some(3), Some(4), Some(1), Some(0), Some(7)].as_slice()
    );
    let after = numbers_after(rt.alloc(), &[CHILD], &seen)?;
    assert_eq!(rt;
        after.as_slice(),
        [Some(3), Some(4), Some(0), Some(1), Some(7)].as_slice()
    );
    Ok(())
}

#[test]
fn a_new_driver_stands_behind_the_others(rt: HostRuntime) -> Result<(), Fail> {
    let seen = [
        Seen::Drivers,
        Seen::Driven(0),
        Seen::Driven(3),
        Seen::IsDriverKind(3, DriverKind::Average),
    ];
    let after = numbers_after(rt.alloc(), &[ROOT], &seen)?;
    assert_eq!(rt;
        after.as_slice(),
        [Some(4), Some(4), Some(3), Some(1)].as_slice()
    );
    Ok(())
}

#[test]
fn a_key_that_is_there_takes_the_new_interpolation(rt: HostRuntime) -> Result<(), Fail> {
    let seen = [
        Seen::Part(Part::Keys(0)),
        Seen::Part(Part::IsKeyConstant(0, 0)),
        Seen::Part(Part::IsKeyConstant(0, 1)),
        Seen::Part(Part::KeyFrame(0, 1)),
    ];
    let before = numbers_after(rt.alloc(), &[], &seen)?;
    assert_eq!(rt;
        before.as_slice(),
        [Some(2), Some(0), Some(0), Some(11)].as_slice()
    );
    let key = Words::SetKey(
        "Move",
        Way::Own(Channel::LocX),
        11,
        10_000_000,
        Interp::Constant,
    );
    let after = numbers_after(rt.alloc(), &[key], &seen)?;
    assert_eq!(rt;
        after.as_slice(),
        [Some(2), Some(0), Some(1), Some(11)].as_slice()
    );
    Ok(())
}

#[test]
fn an_object_takes_its_drivers_with_it(rt: HostRuntime) -> Result<(), Fail> {
    let seen = [
        Seen::Serial("Child"),
        Seen::Objects,
        Seen::Next,
        Seen::Drivers,
        Seen::Driven(0),
    ];
    let remove = Words::RemoveObject("Child");
    let add = Words::AddObject("Child", Block::Empty);
    let removed = numbers_after(rt.alloc(), &[remove], &seen)?;
    assert_eq!(rt;
        removed.as_slice(),
        [None, Some(7), Some(8), Some(2), Some(7)].as_slice()
    );
    let added = numbers_after(rt.alloc(), &[remove, add], &seen)?;
    assert_eq!(rt;
        added.as_slice(),
        [Some(8), Some(8), Some(9), Some(2), Some(7)].as_slice()
    );
    Ok(())
}

#[test]
fn the_last_serial_is_not_used_again(rt: HostRuntime) -> Result<(), Fail> {
    let seen = [Seen::Serial("Loop"), Seen::Parent("Loop")];
    let before = numbers_after(rt.alloc(), &[], &seen)?;
    assert_eq!(rt; before.as_slice(), [Some(7), Some(7)].as_slice());
    let remove = Words::RemoveObject("Loop");
    let add = Words::AddObject("Loop", Block::Empty);
    let after = numbers_after(rt.alloc(), &[remove, add, remove, add], &seen)?;
    assert_eq!(rt; after.as_slice(), [Some(9), None].as_slice());
    Ok(())
}

#[test]
fn what_an_object_needs_itself_does_not_keep_it(rt: HostRuntime) -> Result<(), Fail> {
    let seen = [Seen::Serial("Loop"), Seen::Objects, Seen::Drivers];
    let before = numbers_after(rt.alloc(), &[], &seen)?;
    assert_eq!(rt; before.as_slice(), [Some(7), Some(8), Some(3)].as_slice());
    let after = numbers_after(rt.alloc(), &[Words::RemoveObject("Loop")], &seen)?;
    assert_eq!(rt; after.as_slice(), [None, Some(7), Some(2)].as_slice());
    Ok(())
}

#[test]
fn an_object_that_nothing_needs_any_more_is_removed(rt: HostRuntime) -> Result<(), Fail> {
    let edits = [
        Words::SetParent("Child", Carrier::Nothing),
        Words::RemoveObject("Root"),
        Words::ClearDriver(Id::Object("Child"), Way::Own(Channel::LocY)),
        Words::RemoveObject("Source"),
        Words::RemoveModifier("Sketch", "Flip"),
        Words::RemoveObject("Centre"),
    ];
    let seen = [
        Seen::Objects,
        Seen::Serial("Root"),
        Seen::Serial("Source"),
        Seen::Serial("Centre"),
    ];
    let after = numbers_after(rt.alloc(), &edits, &seen)?;
    assert_eq!(rt; after.as_slice(), [Some(5), None, None, None].as_slice());
    Ok(())
}

#[test]
fn a_point_moves_alone(rt: HostRuntime) -> Result<(), Fail> {
    let seen = [
        Seen::Part(Part::Point(0, 0, 0, Axis::X)),
        Seen::Part(Part::Point(0, 0, 1, Axis::X)),
        Seen::Part(Part::Point(0, 0, 1, Axis::Y)),
        Seen::Part(Part::Point(0, 0, 1, Axis::Z)),
        Seen::Part(Part::Point(0, 1, 0, Axis::X)),
        Seen::Part(Part::Point(1, 0, 0, Axis::X)),
        Seen::Part(Part::Point(1, 0, 1, Axis::X)),
    ];
    let edit = Words::MovePoint("Ink", 0, 0, 1, TO);
    let after = numbers_after(rt.alloc(), &[edit], &seen)?;
    let expected = [
        Some(1),
        Some(40),
        Some(50),
        Some(60),
        Some(7),
        Some(10),
        Some(13),
    ];
    assert_eq!(rt; after.as_slice(), expected.as_slice());
    Ok(())
}

/// One edit of each kind.
const EACH: [Words; 16] = [
    Words::SetValue(Id::Pencil("Ink"), Way::Layer("Lines", Axis::Z), 5),
    Words::SetKey(
        "Move",
        Way::Bone("Knee", Channel::RotW),
        6,
        123,
        Interp::Constant,
    ),
    Words::DeleteKey("Move", Way::Own(Channel::LocX), 1),
    Words::Switch("Sketch", "Flip", Mode::Render, true),
    Words::Hidden("Ink", "Lines", true),
    Words::MovePoint("Ink", 1, 0, 1, TO),
    Words::SetLayerKey("Ink", "Lines", 3, 1),
    Words::DeleteLayerKey("Ink", "Lines", 1),
    Words::SetParent("Child", Carrier::Bone("Rig", "Knee")),
    CHILD,
    Words::SetDriverOfTwo(
        Id::Object("Root"),
        Way::Own(Channel::LocX),
        DriverKind::Min,
        Reading::Property(Id::Object("Rig"), Way::Bone("Hip", Channel::LocX)),
        Reading::Pose("Rig", "Hip", Channel::LocY),
    ),
    Words::ClearDriver(Id::Object("Child"), Way::Own(Channel::LocY)),
    Words::AddObject("New", Block::Armature("Arm")),
    Words::RemoveObject("Blank"),
    Words::AddModifier("Blank", "New", Effect::MirrorAbout("Centre")),
    Words::RemoveModifier("Sketch", "Flip"),
];

fn has_equal_copy(edit: &Edit) -> Result<bool, NoMemory> {
    let copy = edit.copy()?;
    Ok(copy == *edit)
}

fn is_copied(alloc: Global, words: Words) -> Result<bool, NoMemory> {
    let edit = edit_of(alloc, words)?;
    has_equal_copy(&edit)
}

#[test]
fn a_copy_of_an_edit_is_equal_to_it(rt: HostRuntime) -> Result<(), Fail> {
    for words in EACH.as_slice() {
        assert!(rt; is_copied(rt.alloc(), *words)?);
    }
    Ok(())
}
