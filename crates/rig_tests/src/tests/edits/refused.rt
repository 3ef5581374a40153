//! Why edits are refused: each by each cause that it can have, but for full lists. What it would have set stays.
use super::seen::{Part, Seen};
use super::set::TO;
use super::words::{Block, Carrier, Effect, Id, Reading, Way, Words};
use super::{Case, SCENE, cause_of, code_of, first_unmet, scene_in};
use rig_edits::Whole3;
use rig_scene::{Axis, Channel, DriverKind, Interp, Mode};
use std::alloc::Global;
use std::test::Fail;

/// A location with a coordinate out of range.
const FAR: Whole3 = Whole3 {
    x: 0,
    y: 0,
    z: -1_000_000_000_001,
};

/// Nothing of that kind has the name.
const UNKNOWN_IDS: [Case; 21] = [
    Case {
        edit: Words::SetValue(Id::Object("Arm"), Way::Own(Channel::LocX), 5),
        seen: Seen::Own("Arm", Channel::LocX),
        number: None,
    },
    Case {
        edit: Words::SetValue(Id::Pencil("Rig"), Way::Layer("Lines", Axis::X), 5),
        seen: Seen::Part(Part::Offset(0, Axis::X)),
        number: Some(0),
    },
    Case {
        edit: Words::SetKey("Run", Way::Own(Channel::LocX), 6, 1, Interp::Linear),
        seen: Seen::Part(Part::Keys(0)),
        number: Some(2),
    },
    Case {
        edit: Words::DeleteKey("Run", Way::Own(Channel::LocX), 1),
        seen: Seen::Part(Part::Keys(0)),
        number: Some(2),
    },
    Case {
        edit: Words::Switch("Nobody", "Flip", Mode::Viewport, false),
        seen: Seen::Switch("Sketch", 0, Mode::Viewport),
        number: Some(1),
    },
    Case {
        edit: Words::Hidden("Sketch", "Lines", true),
        seen: Seen::Part(Part::IsHidden(0)),
        number: Some(0),
    },
    Case {
        edit: Words::MovePoint("Sketch", 1, 0, 1, TO),
        seen: Seen::Part(Part::Point(1, 0, 1, Axis::Y)),
        number: Some(14),
    },
    Case {
        edit: Words::SetLayerKey("Sketch", "Lines", 3, 1),
        seen: Seen::Part(Part::LayerKeys(0)),
        number: Some(2),
    },
    Case {
        edit: Words::DeleteLayerKey("Sketch", "Lines", 1),
        seen: Seen::Part(Part::LayerKeys(0)),
        number: Some(2),
    },
    Case {
        edit: Words::SetParent("Nobody", Carrier::Object("Root")),
        seen: Seen::Parent("Nobody"),
        number: None,
    },
    Case {
        edit: Words::SetParent("Child", Carrier::Object("Nobody")),
        seen: Seen::Parent("Child"),
        number: Some(3),
    },
    Case {
        edit: Words::SetDriver(
            Id::Object("Nobody"),
            Way::Own(Channel::LocX),
            DriverKind::Max,
            Reading::World("Root", Channel::Scale),
        ),
        seen: Seen::Drivers,
        number: Some(3),
    },
    Case {
        edit: Words::SetDriver(
            Id::Object("Child"),
            Way::Own(Channel::LocY),
            DriverKind::Max,
            Reading::World("Nobody", Channel::Scale),
        ),
        seen: Seen::IsDriverKind(0, DriverKind::Sum),
        number: Some(1),
    },
    Case {
        edit: Words::SetDriver(
            Id::Object("Child"),
            Way::Own(Channel::LocY),
            DriverKind::Max,
            Reading::Property(Id::Pencil("Nobody"), Way::Layer("Lines", Axis::X)),
        ),
        seen: Seen::IsDriverKind(0, DriverKind::Sum),
        number: Some(1),
    },
    Case {
        edit: Words::ClearDriver(Id::Object("Nobody"), Way::Own(Channel::LocY)),
        seen: Seen::Drivers,
        number: Some(3),
    },
    Case {
        edit: Words::AddObject("New", Block::Armature("Ink")),
        seen: Seen::Objects,
        number: Some(8),
    },
    Case {
        edit: Words::AddObject("New", Block::Pencil("Arm")),
        seen: Seen::Next,
        number: Some(8),
    },
    Case {
        edit: Words::RemoveObject("Nobody"),
        seen: Seen::Objects,
        number: Some(8),
    },
    Case {
        edit: Words::AddModifier("Nobody", "New", Effect::Mirror),
        seen: Seen::Modifiers("Nobody"),
        number: None,
    },
    Case {
        edit: Words::AddModifier("Blank", "New", Effect::MirrorAbout("Nobody")),
        seen: Seen::Modifiers("Blank"),
        number: Some(0),
    },
    Case {
        edit: Words::RemoveModifier("Nobody", "Flip"),
        seen: Seen::Modifiers("Sketch"),
        number: Some(2),
    },
];

/// The object or the path is of another kind.
const WRONG_KINDS: [Case; 12] = [
    Case {
        edit: Words::SetValue(Id::Object("Root"), Way::Bone("Knee", Channel::RotX), 5),
        seen: Seen::Pose("Rig", 1, Channel::RotX),
        number: Some(0),
    },
    Case {
        edit: Words::SetValue(Id::Object("Sketch"), Way::Layer("Lines", Axis::X), 5),
        seen: Seen::Part(Part::Offset(0, Axis::X)),
        number: Some(0),
    },
    Case {
        edit: Words::SetValue(Id::Pencil("Ink"), Way::Own(Channel::LocX), 5),
        seen: Seen::Own("Sketch", Channel::LocX),
        number: Some(0),
    },
    Case {
        edit: Words::SetValue(Id::Pencil("Ink"), Way::Bone("Knee", Channel::RotX), 5),
        seen: Seen::Pose("Rig", 1, Channel::RotX),
        number: Some(0),
    },
    Case {
        edit: Words::Switch("Rig", "Flip", Mode::Viewport, false),
        seen: Seen::Switch("Sketch", 0, Mode::Viewport),
        number: Some(1),
    },
    Case {
        edit: Words::SetParent("Child", Carrier::Bone("Sketch", "Hip")),
        seen: Seen::Parent("Child"),
        number: Some(3),
    },
    Case {
        edit: Words::SetDriver(
            Id::Object("Root"),
            Way::Layer("Lines", Axis::X),
            DriverKind::Max,
            Reading::World("Root", Channel::Scale),
        ),
        seen: Seen::Drivers,
        number: Some(3),
    },
    Case {
        edit: Words::SetDriver(
            Id::Object("Child"),
            Way::Own(Channel::LocY),
            DriverKind::Max,
            Reading::Property(Id::Object("Root"), Way::Bone("Knee", Channel::RotX)),
        ),
        seen: Seen::IsDriverKind(0, DriverKind::Sum),
        number: Some(1),
    },
    Case {
        edit: Words::SetDriver(
            Id::Object("Child"),
            Way::Own(Channel::LocY),
            DriverKind::Max,
            Reading::Pose("Root", "Hip", Channel::LocX),
        ),
        seen: Seen::IsDriverKind(0, DriverKind::Sum),
        number: Some(1),
    },
    Case {
        edit: Words::ClearDriver(Id::Object("Child"), Way::Layer("Lines", Axis::Y)),
        seen: Seen::Drivers,
        number: Some(3),
    },
    Case {
        edit: Words::AddModifier("Root", "New", Effect::Mirror),
        seen: Seen::Modifiers("Root"),
        number: None,
    },
    Case {
        edit: Words::RemoveModifier("Rig", "Flip"),
        seen: Seen::Modifiers("Sketch"),
        number: Some(2),
    },
];

/// The bone or the layer of the path isn't there.
const UNKNOWN_PATHS: [Case; 5] = [
    Case {
        edit: Words::SetValue(Id::Object("Rig"), Way::Bone("Foot", Channel::RotX), 5),
        seen: Seen::Pose("Rig", 1, Channel::RotX),
        number: Some(0),
    },
    Case {
        edit: Words::SetValue(Id::Pencil("Ink"), Way::Layer("Notes", Axis::X), 5),
        seen: Seen::Part(Part::Offset(0, Axis::X)),
        number: Some(0),
    },
    Case {
        edit: Words::SetDriver(
            Id::Object("Rig"),
            Way::Bone("Foot", Channel::LocX),
            DriverKind::Max,
            Reading::World("Root", Channel::Scale),
        ),
        seen: Seen::Drivers,
        number: Some(3),
    },
    Case {
        edit: Words::SetDriver(
            Id::Object("Child"),
            Way::Own(Channel::LocY),
            DriverKind::Max,
            Reading::Property(Id::Pencil("Ink"), Way::Layer("Notes", Axis::X)),
        ),
        seen: Seen::IsDriverKind(0, DriverKind::Sum),
        number: Some(1),
    },
    Case {
        edit: Words::ClearDriver(Id::Object("Rig"), Way::Bone("Foot", Channel::RotX)),
        seen: Seen::Drivers,
        number: Some(3),
    },
];

/// There is no such part.
const UNKNOWN_PARTS: [Case; 18] = [
    Case {
        edit: Words::SetKey("Move", Way::Own(Channel::LocY), 6, 1, Interp::Linear),
        seen: Seen::Part(Part::Keys(2)),
        number: None,
    },
    Case {
        edit: Words::DeleteKey("Move", Way::Own(Channel::LocY), 1),
        seen: Seen::Part(Part::Keys(0)),
        number: Some(2),
    },
    Case {
        edit: Words::Switch("Sketch", "Bend", Mode::Viewport, false),
        seen: Seen::Switch("Sketch", 0, Mode::Viewport),
        number: Some(1),
    },
    Case {
        edit: Words::Hidden("Ink", "Notes", true),
        seen: Seen::Part(Part::IsHidden(0)),
        number: Some(0),
    },
    Case {
        edit: Words::MovePoint("Ink", 2, 0, 0, TO),
        seen: Seen::Part(Part::Point(0, 0, 0, Axis::X)),
        number: Some(1),
    },
    Case {
        edit: Words::MovePoint("Ink", 0, 2, 0, TO),
        seen: Seen::Part(Part::Point(0, 0, 0, Axis::X)),
        number: Some(1),
    },
    Case {
        edit: Words::MovePoint("Ink", 0, 0, 2, TO),
        seen: Seen::Part(Part::Point(0, 0, 0, Axis::X)),
        number: Some(1),
    },
    Case {
        edit: Words::MovePoint("Ink", -1, 0, 0, TO),
        seen: Seen::Part(Part::Point(0, 0, 0, Axis::X)),
        number: Some(1),
    },
    Case {
        edit: Words::MovePoint("Ink", 0, -1, 0, TO),
        seen: Seen::Part(Part::Point(0, 0, 0, Axis::X)),
        number: Some(1),
    },
    Case {
        edit: Words::MovePoint("Ink", 0, 0, 4_294_967_296, TO),
        seen: Seen::Part(Part::Point(0, 0, 0, Axis::X)),
        number: Some(1),
    },
    Case {
        edit: Words::SetLayerKey("Ink", "Notes", 3, 1),
        seen: Seen::Part(Part::LayerKeys(0)),
        number: Some(2),
    },
    Case {
        edit: Words::SetLayerKey("Ink", "Lines", 3, 2),
        seen: Seen::Part(Part::LayerKeys(0)),
        number: Some(2),
    },
    Case {
        edit: Words::SetLayerKey("Ink", "Lines", 3, -1),
        seen: Seen::Part(Part::LayerKeys(0)),
        number: Some(2),
    },
    Case {
        edit: Words::SetLayerKey("Ink", "Lines", 3, 4_294_967_296),
        seen: Seen::Part(Part::LayerKeys(0)),
        number: Some(2),
    },
    Case {
        edit: Words::DeleteLayerKey("Ink", "Notes", 1),
        seen: Seen::Part(Part::LayerKeys(0)),
        number: Some(2),
    },
    Case {
        edit: Words::SetParent("Child", Carrier::Bone("Rig", "Foot")),
        seen: Seen::Parent("Child"),
        number: Some(3),
    },
    Case {
        edit: Words::SetDriver(
            Id::Object("Child"),
            Way::Own(Channel::LocY),
            DriverKind::Max,
            Reading::Pose("Rig", "Foot", Channel::LocX),
        ),
        seen: Seen::IsDriverKind(0, DriverKind::Sum),
        number: Some(1),
    },
    Case {
        edit: Words::RemoveModifier("Sketch", "Bend"),
        seen: Seen::Modifiers("Sketch"),
        number: Some(2),
    },
];

/// One more, or one less, than the range has.
const OUT_OF_RANGE: [Case; 14] = [
    Case {
        edit: Words::SetValue(
            Id::Object("Root"),
            Way::Own(Channel::LocX),
            1_000_000_000_001,
        ),
        seen: Seen::Own("Root", Channel::LocX),
        number: Some(0),
    },
    Case {
        edit: Words::SetValue(
            Id::Object("Root"),
            Way::Own(Channel::LocX),
            -1_000_000_000_001,
        ),
        seen: Seen::Own("Root", Channel::LocX),
        number: Some(0),
    },
    Case {
        edit: Words::SetKey(
            "Move",
            Way::Own(Channel::LocX),
            1_000_001,
            1,
            Interp::Linear,
        ),
        seen: Seen::Part(Part::Keys(0)),
        number: Some(2),
    },
    Case {
        edit: Words::SetKey(
            "Move",
            Way::Own(Channel::LocX),
            -1_000_001,
            1,
            Interp::Linear,
        ),
        seen: Seen::Part(Part::Keys(0)),
        number: Some(2),
    },
    Case {
        edit: Words::SetKey(
            "Move",
            Way::Own(Channel::LocX),
            11,
            1_000_000_000_001,
            Interp::Linear,
        ),
        seen: Seen::Part(Part::KeyValue(0, 1)),
        number: Some(10_000_000),
    },
    Case {
        edit: Words::DeleteKey("Move", Way::Own(Channel::LocX), 1_000_001),
        seen: Seen::Part(Part::Keys(0)),
        number: Some(2),
    },
    Case {
        edit: Words::MovePoint("Ink", 1, 0, 1, FAR),
        seen: Seen::Part(Part::Point(1, 0, 1, Axis::X)),
        number: Some(13),
    },
    Case {
        edit: Words::SetLayerKey("Ink", "Lines", -1_000_001, 0),
        seen: Seen::Part(Part::LayerKeys(0)),
        number: Some(2),
    },
    Case {
        edit: Words::DeleteLayerKey("Ink", "Lines", 1_000_001),
        seen: Seen::Part(Part::LayerKeys(0)),
        number: Some(2),
    },
    Case {
        edit: Words::AddModifier("Blank", "New", Effect::Array(0, TO)),
        seen: Seen::Modifiers("Blank"),
        number: Some(0),
    },
    Case {
        edit: Words::AddModifier("Blank", "New", Effect::Array(65, TO)),
        seen: Seen::Modifiers("Blank"),
        number: Some(0),
    },
    Case {
        edit: Words::AddModifier("Blank", "New", Effect::Array(1, FAR)),
        seen: Seen::Modifiers("Blank"),
        number: Some(0),
    },
    Case {
        edit: Words::AddModifier("Blank", "New", Effect::Offset(FAR, 1)),
        seen: Seen::Modifiers("Blank"),
        number: Some(0),
    },
    Case {
        edit: Words::AddModifier("Blank", "New", Effect::Offset(TO, 1_000_000_000_001)),
        seen: Seen::Modifiers("Blank"),
        number: Some(0),
    },
];

/// The name is taken.
const DUPLICATES: [Case; 2] = [
    Case {
        edit: Words::AddObject("Root", Block::Empty),
        seen: Seen::Objects,
        number: Some(8),
    },
    Case {
        edit: Words::AddModifier("Sketch", "Flip", Effect::Offset(TO, 1)),
        seen: Seen::Modifiers("Sketch"),
        number: Some(2),
    },
];

/// There is no key at that frame, and no driver of that channel.
const ABSENT: [Case; 3] = [
    Case {
        edit: Words::DeleteKey("Move", Way::Own(Channel::LocX), 6),
        seen: Seen::Part(Part::Keys(0)),
        number: Some(2),
    },
    Case {
        edit: Words::DeleteLayerKey("Ink", "Lines", 3),
        seen: Seen::Part(Part::LayerKeys(0)),
        number: Some(2),
    },
    Case {
        edit: Words::ClearDriver(Id::Object("Child"), Way::Own(Channel::LocX)),
        seen: Seen::Drivers,
        number: Some(3),
    },
];

/// A parent, the object of a bound layer, the centre of a mirror, and what a driver reads.
const IN_USE: [Case; 4] = [
    Case {
        edit: Words::RemoveObject("Root"),
        seen: Seen::Serial("Root"),
        number: Some(3),
    },
    Case {
        edit: Words::RemoveObject("Rig"),
        seen: Seen::Serial("Rig"),
        number: Some(0),
    },
    Case {
        edit: Words::RemoveObject("Centre"),
        seen: Seen::Serial("Centre"),
        number: Some(2),
    },
    Case {
        edit: Words::RemoveObject("Source"),
        seen: Seen::Serial("Source"),
        number: Some(5),
    },
];

/// An edit that has several causes, and the code of the first.
#[derive(Clone, Copy)]
struct First {
    edit: Words,
    code: &'static str,
}

const FIRST: [First; 10] = [
    First {
        edit: Words::SetDriverOfTwo(
            Id::Object("Root"),
            Way::Layer("Lines", Axis::X),
            DriverKind::Sum,
            Reading::Property(Id::Object("Root"), Way::Own(Channel::LocX)),
            Reading::World("Nobody", Channel::Scale),
        ),
        code: "E1",
    },
    First {
        edit: Words::SetDriverOfTwo(
            Id::Object("Rig"),
            Way::Bone("Foot", Channel::LocX),
            DriverKind::Sum,
            Reading::Property(Id::Object("Root"), Way::Own(Channel::LocX)),
            Reading::Property(Id::Object("Root"), Way::Bone("Hip", Channel::LocX)),
        ),
        code: "E2",
    },
    First {
        edit: Words::SetDriverOfTwo(
            Id::Object("Root"),
            Way::Own(Channel::LocX),
            DriverKind::Sum,
            Reading::Pose("Rig", "Foot", Channel::LocX),
            Reading::Property(Id::Pencil("Ink"), Way::Layer("Notes", Axis::X)),
        ),
        code: "E3",
    },
    First {
        edit: Words::SetKey(
            "Move",
            Way::Own(Channel::Scale),
            1_000_001,
            1,
            Interp::Linear,
        ),
        code: "E4",
    },
    First {
        edit: Words::SetKey(
            "Run",
            Way::Own(Channel::Scale),
            1_000_001,
            1,
            Interp::Linear,
        ),
        code: "E1",
    },
    First {
        edit: Words::MovePoint("Ink", 2, 0, 0, FAR),
        code: "E4",
    },
    First {
        edit: Words::SetParent("Nobody", Carrier::Bone("Root", "Hip")),
        code: "E1",
    },
    First {
        edit: Words::AddObject("Root", Block::Pencil("Nobody")),
        code: "E1",
    },
    First {
        edit: Words::AddModifier("Root", "New", Effect::MirrorAbout("Nobody")),
        code: "E1",
    },
    First {
        edit: Words::AddModifier("Sketch", "Flip", Effect::Array(65, TO)),
        code: "E5",
    },
];

#[test]
fn an_unknown_name_is_refused(rt: HostRuntime) -> Result<(), Fail> {
    assert_eq!(rt; first_unmet(rt.alloc(), "E1", &UNKNOWN_IDS)?, None);
    Ok(())
}

#[test]
fn a_path_or_an_object_of_another_kind_is_refused(rt: HostRuntime) -> Result<(), Fail> {
    assert_eq!(rt; first_unmet(rt.alloc(), "E2", &WRONG_KINDS)?, None);
    Ok(())
}

#[test]
fn a_path_of_an_unknown_bone_or_layer_is_refused(rt: HostRuntime) -> Result<(), Fail> {
    assert_eq!(rt; first_unmet(rt.alloc(), "E3", &UNKNOWN_PATHS)?, None);
    Ok(())
}

#[test]
fn an_unknown_part_is_refused(rt: HostRuntime) -> Result<(), Fail> {
    assert_eq!(rt; first_unmet(rt.alloc(), "E4", &UNKNOWN_PARTS)?, None);
    Ok(())
}

#[test]
fn a_number_out_of_range_is_refused(rt: HostRuntime) -> Result<(), Fail> {
    assert_eq!(rt; first_unmet(rt.alloc(), "E5", &OUT_OF_RANGE)?, None);
    Ok(())
}

#[test]
fn a_name_that_stands_there_is_refused(rt: HostRuntime) -> Result<(), Fail> {
    assert_eq!(rt; first_unmet(rt.alloc(), "E6", &DUPLICATES)?, None);
    Ok(())
}

#[test]
fn what_is_absent_is_not_taken_out(rt: HostRuntime) -> Result<(), Fail> {
    assert_eq!(rt; first_unmet(rt.alloc(), "E7", &ABSENT)?, None);
    Ok(())
}

#[test]
fn an_object_in_use_is_not_removed(rt: HostRuntime) -> Result<(), Fail> {
    assert_eq!(rt; first_unmet(rt.alloc(), "E8", &IN_USE)?, None);
    Ok(())
}

fn answer(alloc: Global, edit: Words) -> Result<&'static str, Fail> {
    let mut scene = scene_in(alloc, SCENE)?;
    Ok(code_of(cause_of(alloc, &mut scene, edit)?))
}

#[test]
fn the_first_cause_is_answered(rt: HostRuntime) -> Result<(), Fail> {
    for case in FIRST.as_slice() {
        assert_eq!(rt; answer(rt.alloc(), case.edit)?, case.code);
    }
    Ok(())
}
