//! What each edit sets, where it is applied.
use super::seen::{Part, Seen};
use super::words::{Block, Carrier, Effect, Id, Reading, Way, Words};
use super::{Case, first_unmet};
use rig_edits::Whole3;
use rig_scene::{Axis, Channel, DriverKind, Interp, Mode};
use std::test::Fail;

/// Where points are moved to.
pub(super) const TO: Whole3 = Whole3 {
    x: 40,
    y: 50,
    z: 60,
};

const VALUES: [Case; 3] = [
    Case {
        edit: Words::SetValue(Id::Object("Root"), Way::Own(Channel::LocY), 5),
        seen: Seen::Own("Root", Channel::LocY),
        number: Some(5),
    },
    Case {
        edit: Words::SetValue(Id::Object("Rig"), Way::Bone("Knee", Channel::RotX), -7),
        seen: Seen::Pose("Rig", 1, Channel::RotX),
        number: Some(-7),
    },
    Case {
        edit: Words::SetValue(
            Id::Pencil("Ink"),
            Way::Layer("Fills", Axis::Z),
            1_000_000_000_000,
        ),
        seen: Seen::Part(Part::Offset(1, Axis::Z)),
        number: Some(1_000_000_000_000),
    },
];

const KEYS: [Case; 12] = [
    Case {
        edit: Words::SetKey("Move", Way::Own(Channel::LocX), 6, 123, Interp::Constant),
        seen: Seen::Part(Part::Keys(0)),
        number: Some(3),
    },
    Case {
        edit: Words::SetKey("Move", Way::Own(Channel::LocX), 6, 123, Interp::Constant),
        seen: Seen::Part(Part::KeyFrame(0, 1)),
        number: Some(6),
    },
    Case {
        edit: Words::SetKey("Move", Way::Own(Channel::LocX), 6, 123, Interp::Constant),
        seen: Seen::Part(Part::KeyValue(0, 1)),
        number: Some(123),
    },
    Case {
        edit: Words::SetKey("Move", Way::Own(Channel::LocX), 6, 123, Interp::Constant),
        seen: Seen::Part(Part::IsKeyConstant(0, 1)),
        number: Some(1),
    },
    Case {
        edit: Words::SetKey("Move", Way::Own(Channel::LocX), 6, 123, Interp::Constant),
        seen: Seen::Part(Part::KeyFrame(0, 2)),
        number: Some(11),
    },
    Case {
        edit: Words::SetKey("Move", Way::Own(Channel::LocX), 11, -4, Interp::Constant),
        seen: Seen::Part(Part::Keys(0)),
        number: Some(2),
    },
    Case {
        edit: Words::SetKey("Move", Way::Own(Channel::LocX), 11, -4, Interp::Constant),
        seen: Seen::Part(Part::KeyValue(0, 1)),
        number: Some(-4),
    },
    Case {
        edit: Words::SetKey("Move", Way::Own(Channel::LocX), 11, -4, Interp::Constant),
        seen: Seen::Part(Part::IsKeyConstant(0, 1)),
        number: Some(1),
    },
    Case {
        edit: Words::SetKey(
            "Move",
            Way::Bone("Knee", Channel::RotW),
            -1_000_000,
            1,
            Interp::Linear,
        ),
        seen: Seen::Part(Part::KeyFrame(1, 0)),
        number: Some(-1_000_000),
    },
    Case {
        edit: Words::SetKey(
            "Move",
            Way::Bone("Knee", Channel::RotW),
            -1_000_000,
            1,
            Interp::Linear,
        ),
        seen: Seen::Part(Part::IsKeyConstant(1, 0)),
        number: Some(0),
    },
    Case {
        edit: Words::DeleteKey("Move", Way::Own(Channel::LocX), 1),
        seen: Seen::Part(Part::Keys(0)),
        number: Some(1),
    },
    Case {
        edit: Words::DeleteKey("Move", Way::Own(Channel::LocX), 1),
        seen: Seen::Part(Part::KeyFrame(0, 0)),
        number: Some(11),
    },
];

const FLAGS: [Case; 6] = [
    Case {
        edit: Words::Switch("Sketch", "Flip", Mode::Viewport, false),
        seen: Seen::Switch("Sketch", 0, Mode::Viewport),
        number: Some(0),
    },
    Case {
        edit: Words::Switch("Sketch", "Flip", Mode::Viewport, false),
        seen: Seen::Switch("Sketch", 0, Mode::Render),
        number: Some(1),
    },
    Case {
        edit: Words::Switch("Sketch", "Shift", Mode::Render, true),
        seen: Seen::Switch("Sketch", 1, Mode::Render),
        number: Some(1),
    },
    Case {
        edit: Words::Switch("Sketch", "Flip", Mode::Render, false),
        seen: Seen::Switch("Sketch", 0, Mode::Render),
        number: Some(0),
    },
    Case {
        edit: Words::Hidden("Ink", "Lines", true),
        seen: Seen::Part(Part::IsHidden(0)),
        number: Some(1),
    },
    Case {
        edit: Words::Hidden("Ink", "Fills", false),
        seen: Seen::Part(Part::IsHidden(1)),
        number: Some(0),
    },
];

const DRAWN: [Case; 8] = [
    Case {
        edit: Words::MovePoint("Ink", 1, 0, 1, TO),
        seen: Seen::Part(Part::Point(1, 0, 1, Axis::Y)),
        number: Some(50),
    },
    Case {
        edit: Words::SetLayerKey("Ink", "Lines", 3, 1),
        seen: Seen::Part(Part::LayerKeys(0)),
        number: Some(3),
    },
    Case {
        edit: Words::SetLayerKey("Ink", "Lines", 3, 1),
        seen: Seen::Part(Part::LayerKeyFrame(0, 1)),
        number: Some(3),
    },
    Case {
        edit: Words::SetLayerKey("Ink", "Lines", 3, 1),
        seen: Seen::Part(Part::LayerKeyDrawing(0, 1)),
        number: Some(1),
    },
    Case {
        edit: Words::SetLayerKey("Ink", "Lines", 5, 0),
        seen: Seen::Part(Part::LayerKeys(0)),
        number: Some(2),
    },
    Case {
        edit: Words::SetLayerKey("Ink", "Lines", 5, 0),
        seen: Seen::Part(Part::LayerKeyDrawing(0, 1)),
        number: Some(0),
    },
    Case {
        edit: Words::DeleteLayerKey("Ink", "Lines", 1),
        seen: Seen::Part(Part::LayerKeys(0)),
        number: Some(1),
    },
    Case {
        edit: Words::DeleteLayerKey("Ink", "Lines", 1),
        seen: Seen::Part(Part::LayerKeyFrame(0, 0)),
        number: Some(5),
    },
];

const LINKS: [Case; 10] = [
    Case {
        edit: Words::SetParent("Child", Carrier::Object("Sketch")),
        seen: Seen::Parent("Child"),
        number: Some(1),
    },
    Case {
        edit: Words::SetParent("Child", Carrier::Nothing),
        seen: Seen::Parent("Child"),
        number: None,
    },
    Case {
        edit: Words::SetParent("Child", Carrier::Bone("Rig", "Knee")),
        seen: Seen::Parent("Child"),
        number: Some(0),
    },
    Case {
        edit: Words::SetParent("Child", Carrier::Bone("Rig", "Knee")),
        seen: Seen::ParentBone("Child"),
        number: Some(1),
    },
    Case {
        edit: Words::SetDriver(
            Id::Object("Child"),
            Way::Own(Channel::LocY),
            DriverKind::Max,
            Reading::World("Root", Channel::Scale),
        ),
        seen: Seen::IsDriverKind(0, DriverKind::Max),
        number: Some(1),
    },
    Case {
        edit: Words::SetDriver(
            Id::Object("Child"),
            Way::Own(Channel::LocY),
            DriverKind::Max,
            Reading::World("Root", Channel::Scale),
        ),
        seen: Seen::Drivers,
        number: Some(3),
    },
    Case {
        edit: Words::SetDriverOfTwo(
            Id::Pencil("Ink"),
            Way::Layer("Lines", Axis::X),
            DriverKind::Sum,
            Reading::Pose("Rig", "Hip", Channel::LocX),
            Reading::Property(Id::Object("Root"), Way::Own(Channel::LocX)),
        ),
        seen: Seen::Drivers,
        number: Some(4),
    },
    Case {
        edit: Words::SetDriverOfTwo(
            Id::Pencil("Ink"),
            Way::Layer("Lines", Axis::X),
            DriverKind::Sum,
            Reading::Pose("Rig", "Hip", Channel::LocX),
            Reading::Property(Id::Object("Root"), Way::Own(Channel::LocX)),
        ),
        seen: Seen::Variables(3),
        number: Some(2),
    },
    Case {
        edit: Words::ClearDriver(Id::Object("Child"), Way::Own(Channel::LocY)),
        seen: Seen::Drivers,
        number: Some(2),
    },
    Case {
        edit: Words::ClearDriver(Id::Object("Child"), Way::Own(Channel::LocY)),
        seen: Seen::Driven(0),
        number: Some(7),
    },
];

const OBJECTS: [Case; 10] = [
    Case {
        edit: Words::AddObject("New", Block::Empty),
        seen: Seen::Objects,
        number: Some(9),
    },
    Case {
        edit: Words::AddObject("New", Block::Empty),
        seen: Seen::Next,
        number: Some(9),
    },
    Case {
        edit: Words::AddObject("New", Block::Empty),
        seen: Seen::Serial("New"),
        number: Some(8),
    },
    Case {
        edit: Words::AddObject("New", Block::Empty),
        seen: Seen::Parent("New"),
        number: None,
    },
    Case {
        edit: Words::AddObject("New", Block::Empty),
        seen: Seen::Own("New", Channel::RotW),
        number: Some(1_000_000),
    },
    Case {
        edit: Words::AddObject("New", Block::Armature("Arm")),
        seen: Seen::Pose("New", 1, Channel::Scale),
        number: Some(1_000_000),
    },
    Case {
        edit: Words::AddObject("New", Block::Armature("Arm")),
        seen: Seen::Pose("New", 2, Channel::Scale),
        number: None,
    },
    Case {
        edit: Words::AddObject("New", Block::Pencil("Ink")),
        seen: Seen::Modifiers("New"),
        number: Some(0),
    },
    Case {
        edit: Words::RemoveObject("Blank"),
        seen: Seen::Objects,
        number: Some(7),
    },
    Case {
        edit: Words::RemoveObject("Blank"),
        seen: Seen::Serial("Blank"),
        number: None,
    },
];

const STACKS: [Case; 11] = [
    Case {
        edit: Words::AddModifier("Blank", "New", Effect::Offset(TO, 500_000)),
        seen: Seen::Scale("Blank", 0),
        number: Some(500_000),
    },
    Case {
        edit: Words::AddModifier("Blank", "New", Effect::Offset(TO, 500_000)),
        seen: Seen::Shift("Blank", 0, Axis::Z),
        number: Some(60),
    },
    Case {
        edit: Words::AddModifier("Blank", "New", Effect::Offset(TO, 500_000)),
        seen: Seen::Switch("Blank", 0, Mode::Viewport),
        number: Some(1),
    },
    Case {
        edit: Words::AddModifier("Blank", "New", Effect::Offset(TO, 500_000)),
        seen: Seen::Switch("Blank", 0, Mode::Render),
        number: Some(0),
    },
    Case {
        edit: Words::AddModifier("Blank", "New", Effect::Array(64, TO)),
        seen: Seen::Count("Blank", 0),
        number: Some(64),
    },
    Case {
        edit: Words::AddModifier("Blank", "New", Effect::Array(64, TO)),
        seen: Seen::Shift("Blank", 0, Axis::X),
        number: Some(40),
    },
    Case {
        edit: Words::AddModifier("Blank", "New", Effect::MirrorAbout("Centre")),
        seen: Seen::Centre("Blank", 0),
        number: Some(2),
    },
    Case {
        edit: Words::AddModifier("Sketch", "New", Effect::Mirror),
        seen: Seen::Modifiers("Sketch"),
        number: Some(3),
    },
    Case {
        edit: Words::AddModifier("Sketch", "New", Effect::Mirror),
        seen: Seen::Centre("Sketch", 2),
        number: None,
    },
    Case {
        edit: Words::RemoveModifier("Sketch", "Flip"),
        seen: Seen::Modifiers("Sketch"),
        number: Some(1),
    },
    Case {
        edit: Words::RemoveModifier("Sketch", "Flip"),
        seen: Seen::Shift("Sketch", 0, Axis::Y),
        number: Some(11),
    },
];

#[test]
fn a_value_is_set(rt: HostRuntime) -> Result<(), Fail> {
    assert_eq!(rt; first_unmet(rt.alloc(), "applied", &VALUES)?, None);
    Ok(())
}

#[test]
fn a_key_is_set_or_deleted(rt: HostRuntime) -> Result<(), Fail> {
    assert_eq!(rt; first_unmet(rt.alloc(), "applied", &KEYS)?, None);
    Ok(())
}

#[test]
fn a_switch_is_set(rt: HostRuntime) -> Result<(), Fail> {
    assert_eq!(rt; first_unmet(rt.alloc(), "applied", &FLAGS)?, None);
    Ok(())
}

#[test]
fn points_and_layer_keys_are_set(rt: HostRuntime) -> Result<(), Fail> {
    assert_eq!(rt; first_unmet(rt.alloc(), "applied", &DRAWN)?, None);
    Ok(())
}

#[test]
fn parents_and_drivers_are_set(rt: HostRuntime) -> Result<(), Fail> {
    assert_eq!(rt; first_unmet(rt.alloc(), "applied", &LINKS)?, None);
    Ok(())
}

#[test]
fn objects_are_added_and_removed(rt: HostRuntime) -> Result<(), Fail> {
    assert_eq!(rt; first_unmet(rt.alloc(), "applied", &OBJECTS)?, None);
    Ok(())
}

#[test]
fn modifiers_are_added_and_removed(rt: HostRuntime) -> Result<(), Fail> {
    assert_eq!(rt; first_unmet(rt.alloc(), "applied", &STACKS)?, None);
    Ok(())
}
