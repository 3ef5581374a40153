//! Numbers of a scene, by which a table tells what an edit has set.
use rig_scene::{
    Action, AnimId, Axis, Channel, Curve, Driver, DriverKind, Effect, Interp, Key, Kind, Layer,
    LayerKey, Mode, Modifier, Object, Parent, PencilData, Scene, Stroke,
};

/// A number of a scene: of an object by its name, of a part by its index. A truth value is 1 or 0.
#[derive(Clone, Copy)]
pub(super) enum Seen {
    Own(&'static str, Channel),
    Pose(&'static str, usize, Channel),
    Serial(&'static str),
    Parent(&'static str),
    ParentBone(&'static str),
    Objects,
    Next,
    Modifiers(&'static str),
    Switch(&'static str, usize, Mode),
    Scale(&'static str, usize),
    Count(&'static str, usize),
    Shift(&'static str, usize, Axis),
    Centre(&'static str, usize),
    Drivers,
    /// The serial of the object that a driver drives.
    Driven(usize),
    IsDriverKind(usize, DriverKind),
    Variables(usize),
    Part(Part),
}

/// A number of the curves of the first action, or of the layers and drawings of the first pencil.
#[derive(Clone, Copy)]
pub(super) enum Part {
    Keys(usize),
    KeyFrame(usize, usize),
    KeyValue(usize, usize),
    IsKeyConstant(usize, usize),
    Offset(usize, Axis),
    IsHidden(usize),
    LayerKeys(usize),
    LayerKeyFrame(usize, usize),
    LayerKeyDrawing(usize, usize),
    /// Of a drawing, a stroke of it and a point of that.
    Point(usize, usize, usize, Axis),
}

fn truth(holds: bool) -> i64 {
    if holds { 1 } else { 0 }
}

fn whole(count: usize) -> Option<i64> {
    i64::try_from(count).ok()
}

fn object_named<'a>(scene: &'a Scene, name: &str) -> Option<&'a Object> {
    scene
        .objects
        .as_slice()
        .iter()
        .find(|object| object.name.as_str() == name)
}

fn serial(scene: &Scene, name: &str) -> Option<i64> {
    let object = object_named(scene, name)?;
    Some(i64::from(object.id.0))
}

fn own(scene: &Scene, name: &str, channel: Channel) -> Option<i64> {
    let object = object_named(scene, name)?;
    Some(object.own.get(channel).get())
}

fn pose(scene: &Scene, name: &str, bone: usize, channel: Channel) -> Option<i64> {
    match &object_named(scene, name)?.kind {
        Kind::Armature { pose, .. } => Some(pose.as_slice().get(bone)?.get(channel).get()),
        Kind::Empty | Kind::Pencil { .. } => None,
    }
}

fn parent(scene: &Scene, name: &str) -> Option<Parent> {
    object_named(scene, name)?.parent
}

fn parent_serial(scene: &Scene, name: &str) -> Option<i64> {
    Some(i64::from(parent(scene, name)?.object.0))
}

fn parent_bone(scene: &Scene, name: &str) -> Option<i64> {
    Some(i64::from(parent(scene, name)?.bone?))
}

fn first_action(scene: &Scene) -> Option<&Action> {
    scene.actions.as_slice().first()
}

fn curve(scene: &Scene, index: usize) -> Option<&Curve> {
    first_action(scene)?.curves.as_slice().get(index)
}

fn key(scene: &Scene, curve_index: usize, index: usize) -> Option<Key> {
    curve(scene, curve_index)?
        .keys
        .as_slice()
        .get(index)
        .copied()
}

fn key_count(scene: &Scene, index: usize) -> Option<i64> {
    whole(curve(scene, index)?.keys.len())
}

fn key_frame(scene: &Scene, curve_index: usize, index: usize) -> Option<i64> {
    Some(i64::from(key(scene, curve_index, index)?.frame))
}

fn key_value(scene: &Scene, curve_index: usize, index: usize) -> Option<i64> {
    Some(key(scene, curve_index, index)?.value.get())
}

fn is_key_constant(scene: &Scene, curve_index: usize, index: usize) -> Option<i64> {
    Some(truth(key(scene, curve_index, index)?.interp == Interp::Constant))
}

fn first_pencil(scene: &Scene) -> Option<&PencilData> {
    scene.pencils.as_slice().first()
}

fn layer(scene: &Scene, index: usize) -> Option<&Layer> {
    first_pencil(scene)?.layers.as_slice().get(index)
}

fn layer_key(scene: &Scene, layer_index: usize, index: usize) -> Option<LayerKey> {
    layer(scene, layer_index)?
        .keys
        .as_slice()
        .get(index)
        .copied()
}

fn offset(scene: &Scene, index: usize, axis: Axis) -> Option<i64> {
    Some(axis.coordinate_of(&layer(scene, index)?.offset).get())
}

fn is_hidden(scene: &Scene, index: usize) -> Option<i64> {
    Some(truth(layer(scene, index)?.hidden))
}

fn layer_key_count(scene: &Scene, index: usize) -> Option<i64> {
    whole(layer(scene, index)?.keys.len())
}

fn layer_key_frame(scene: &Scene, layer_index: usize, index: usize) -> Option<i64> {
    Some(i64::from(layer_key(scene, layer_index, index)?.frame))
}

fn layer_key_drawing(scene: &Scene, layer_index: usize, index: usize) -> Option<i64> {
    Some(i64::from(layer_key(scene, layer_index, index)?.drawing))
}

fn stroke(scene: &Scene, drawing: usize, index: usize) -> Option<&Stroke> {
    let drawing = first_pencil(scene)?.drawings.as_slice().get(drawing)?;
    drawing.strokes.as_slice().get(index)
}

fn coordinate(
    scene: &Scene,
    drawing: usize,
    stroke_index: usize,
    point: usize,
    axis: Axis,
) -> Option<i64> {
    let stroke = stroke(scene, drawing, stroke_index)?;
    Some(
        axis.coordinate_of(stroke.points.as_slice().get(point)?)
            .get(),
    )
}

fn modifiers<'a>(scene: &'a Scene, name: &str) -> Option<&'a [Modifier]> {
    match &object_named(scene, name)?.kind {
        Kind::Pencil { modifiers, .. } => Some(modifiers.as_slice()),
        Kind::Empty | Kind::Armature { .. } => None,
    }
}

fn modifier<'a>(scene: &'a Scene, name: &str, index: usize) -> Option<&'a Modifier> {
    modifiers(scene, name)?.get(index)
}

fn modifier_count(scene: &Scene, name: &str) -> Option<i64> {
    whole(modifiers(scene, name)?.len())
}

fn switch(scene: &Scene, name: &str, index: usize, mode: Mode) -> Option<i64> {
    let modifier = modifier(scene, name, index)?;
    match mode {
        Mode::Viewport => Some(truth(modifier.viewport)),
        Mode::Render => Some(truth(modifier.render)),
    }
}

fn scale(scene: &Scene, name: &str, index: usize) -> Option<i64> {
    match modifier(scene, name, index)?.effect {
        Effect::Offset { scale, .. } => Some(scale.get()),
        Effect::Mirror(_) | Effect::Array { .. } => None,
    }
}

fn count(scene: &Scene, name: &str, index: usize) -> Option<i64> {
    match modifier(scene, name, index)?.effect {
        Effect::Array { count, .. } => Some(i64::from(count)),
        Effect::Offset { .. } | Effect::Mirror(_) => None,
    }
}

// By how much the effect moves points, on an axis.
fn shift(scene: &Scene, name: &str, index: usize, axis: Axis) -> Option<i64> {
    match modifier(scene, name, index)?.effect {
        Effect::Offset { loc, .. } => Some(axis.coordinate_of(&loc).get()),
        Effect::Array { offset, .. } => Some(axis.coordinate_of(&offset).get()),
        Effect::Mirror(_) => None,
    }
}

// The serial of the object about which a mirror mirrors.
fn centre(scene: &Scene, name: &str, index: usize) -> Option<i64> {
    match modifier(scene, name, index)?.effect {
        Effect::Mirror(mirror) => Some(i64::from(mirror.centre?.0)),
        Effect::Offset { .. } | Effect::Array { .. } => None,
    }
}

fn driver(scene: &Scene, index: usize) -> Option<&Driver> {
    scene.drivers.as_slice().get(index)
}

fn driven(scene: &Scene, index: usize) -> Option<i64> {
    match driver(scene, index)?.id {
        AnimId::Object(object) => Some(i64::from(object.0)),
        AnimId::Pencil(_) => None,
    }
}

fn is_driver_kind(scene: &Scene, index: usize, kind: DriverKind) -> Option<i64> {
    Some(truth(driver(scene, index)?.kind == kind))
}

fn variable_count(scene: &Scene, index: usize) -> Option<i64> {
    whole(driver(scene, index)?.variables.len())
}

/// The number of a scene, `None` where it has no such thing.
pub(super) fn number_of(scene: &Scene, seen: Seen) -> Option<i64> {
    match seen {
        Seen::Own(name, channel) => own(scene, name, channel),
        Seen::Pose(name, bone, channel) => pose(scene, name, bone, channel),
        Seen::Serial(name) => serial(scene, name),
        Seen::Parent(name) => parent_serial(scene, name),
        Seen::ParentBone(name) => parent_bone(scene, name),
        Seen::Objects => whole(scene.objects.len()),
        Seen::Next => Some(i64::from(scene.next)),
        Seen::Drivers => whole(scene.drivers.len()),
        Seen::Driven(index) => driven(scene, index),
        Seen::IsDriverKind(index, kind) => is_driver_kind(scene, index, kind),
        Seen::Variables(index) => variable_count(scene, index),
        Seen::Modifiers(name) => modifier_count(scene, name),
        Seen::Switch(name, index, mode) => switch(scene, name, index, mode),
        Seen::Scale(name, index) => scale(scene, name, index),
        Seen::Count(name, index) => count(scene, name, index),
        Seen::Shift(name, index, axis) => shift(scene, name, index, axis),
        Seen::Centre(name, index) => centre(scene, name, index),
        Seen::Part(part) => part_number(scene, part),
    }
}

// The number of a part of the first action or the first pencil.
fn part_number(scene: &Scene, part: Part) -> Option<i64> {
    match part {
        Part::Keys(curve) => key_count(scene, curve),
        Part::KeyFrame(curve, index) => key_frame(scene, curve, index),
        Part::KeyValue(curve, index) => key_value(scene, curve, index),
        Part::IsKeyConstant(curve, index) => is_key_constant(scene, curve, index),
        Part::Offset(layer, axis) => offset(scene, layer, axis),
        Part::IsHidden(layer) => is_hidden(scene, layer),
        Part::LayerKeys(layer) => layer_key_count(scene, layer),
        Part::LayerKeyFrame(layer, index) => layer_key_frame(scene, layer, index),
        Part::LayerKeyDrawing(layer, index) => layer_key_drawing(scene, layer, index),
        Part::Point(drawing, stroke, point, axis) => coordinate(
            scene, drawing, stroke, point, axis,
        ),
    }
}
