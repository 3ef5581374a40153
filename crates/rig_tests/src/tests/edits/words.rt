//! Edits with their names as texts, as tables hold them.
use super::super::reading::named;
use rig_edits::{
    Edit, Flag, IdName, NewDriver, NewEffect, NewKind, NewParent, NewVariable, Whole3,
};
use rig_io::{List, NoMemory};
use rig_scene::{Axis, Channel, DriverKind, Interp, Mode, Name, Path};
use std::alloc::Global;

/// What can have drivers.
#[derive(Clone, Copy)]
pub(super) enum Id {
    Object(&'static str),
    Pencil(&'static str),
}

/// A path.
#[derive(Clone, Copy)]
pub(super) enum Way {
    Own(Channel),
    Bone(&'static str, Channel),
    Layer(&'static str, Axis),
}

/// What a driver reads: a channel, or a transform of an object or of its bone.
#[derive(Clone, Copy)]
pub(super) enum Reading {
    Property(Id, Way),
    World(&'static str, Channel),
    Pose(&'static str, &'static str, Channel),
}

/// What carries an object.
#[derive(Clone, Copy)]
pub(super) enum Carrier {
    Nothing,
    Object(&'static str),
    Bone(&'static str, &'static str),
}

/// The data of a new object.
#[derive(Clone, Copy)]
pub(super) enum Block {
    Empty,
    Armature(&'static str),
    Pencil(&'static str),
}

/// What a new modifier does.
#[derive(Clone, Copy)]
pub(super) enum Effect {
    Offset(Whole3, i64),
    /// About the origin of the object itself.
    Mirror,
    MirrorAbout(&'static str),
    Array(i64, Whole3),
}

/// An edit.
#[derive(Clone, Copy)]
pub(super) enum Words {
    SetValue(Id, Way, i64),
    SetKey(&'static str, Way, i64, i64, Interp),
    DeleteKey(&'static str, Way, i64),
    Switch(&'static str, &'static str, Mode, bool),
    Hidden(&'static str, &'static str, bool),
    /// Of a pencil, a point by the indices of drawing, stroke and point.
    MovePoint(&'static str, i64, i64, i64, Whole3),
    SetLayerKey(&'static str, &'static str, i64, i64),
    DeleteLayerKey(&'static str, &'static str, i64),
    SetParent(&'static str, Carrier),
    SetDriver(Id, Way, DriverKind, Reading),
    /// With two variables.
    SetDriverOfTwo(Id, Way, DriverKind, Reading, Reading),
    ClearDriver(Id, Way),
    AddObject(&'static str, Block),
    RemoveObject(&'static str),
    /// With the switch of the viewport on, and that of the render off.
    AddModifier(&'static str, &'static str, Effect),
    RemoveModifier(&'static str, &'static str),
}

fn id_of(alloc: Global, id: Id) -> Result<IdName, NoMemory> {
    match id {
        Id::Object(name) => Ok(IdName::Object(named(alloc, name)?)),
        Id::Pencil(name) => Ok(IdName::Pencil(named(alloc, name)?)),
    }
}

fn path_of(alloc: Global, way: Way) -> Result<Path, NoMemory> {
    match way {
        Way::Own(channel) => Ok(Path::Own(channel)),
        Way::Bone(bone, channel) => Ok(Path::Bone(named(alloc, bone)?, channel)),
        Way::Layer(layer, axis) => Ok(Path::Layer(named(alloc, layer)?, axis)),
    }
}

fn variable_of(alloc: Global, reading: Reading) -> Result<NewVariable, NoMemory> {
    match reading {
        Reading::Property(id, way) => Ok(NewVariable::Property {
            id: id_of(alloc, id)?,
            path: path_of(alloc, way)?,
        }),
        Reading::World(object, channel) => Ok(NewVariable::Transform {
            object: named(alloc, object)?,
            bone: None,
            world: true,
            channel,
        }),
        Reading::Pose(object, bone, channel) => Ok(NewVariable::Transform {
            object: named(alloc, object)?,
            bone: Some(named(alloc, bone)?),
            world: false,
            channel,
        }),
    }
}

fn driver_of_one(alloc: Global, kind: DriverKind, a: Reading) -> Result<NewDriver, NoMemory> {
    let mut variables = List::new(alloc);
    variables.push(variable_of(alloc, a)?)?;
    Ok(NewDriver { kind, variables })
}

fn driver_of_two(
    alloc: Global,
    kind: DriverKind,
    a: Reading,
    b: Reading,
) -> Result<NewDriver, NoMemory> {
    let mut variables = List::new(alloc);
    variables.push(variable_of(alloc, a)?)?;
    variables.push(variable_of(alloc, b)?)?;
    Ok(NewDriver { kind, variables })
}

fn parent_of(alloc: Global, carrier: Carrier) -> Result<Option<NewParent>, NoMemory> {
    match carrier {
        Carrier::Nothing => Ok(None),
        Carrier::Object(object) => Ok(Some(NewParent {
            object: named(alloc, object)?,
            bone: None,
        })),
        Carrier::Bone(object, bone) => Ok(Some(NewParent {
            object: named(alloc, object)?,
            bone: Some(named(alloc, bone)?),
        })),
    }
}

fn kind_of(alloc: Global, block: Block) -> Result<NewKind, NoMemory> {
    match block {
        Block::Empty => Ok(NewKind::Empty),
        Block::Armature(name) => Ok(NewKind::Armature(named(alloc, name)?)),
        Block::Pencil(name) => Ok(NewKind::Pencil(named(alloc, name)?)),
    }
}

fn mirror(object: Option<Name>) -> NewEffect {
    NewEffect::Mirror {
        x: true,
        y: false,
        z: false,
        object,
    }
}

fn effect_of(alloc: Global, effect: Effect) -> Result<NewEffect, NoMemory> {
    match effect {
        Effect::Offset(loc, scale) => Ok(NewEffect::Offset { loc, scale }),
        Effect::Mirror => Ok(mirror(None)),
        Effect::MirrorAbout(object) => Ok(mirror(Some(named(alloc, object)?))),
        Effect::Array(count, offset) => Ok(NewEffect::Array { count, offset }),
    }
}

fn set_value(alloc: Global, id: Id, way: Way, value: i64) -> Result<Edit, NoMemory> {
    Ok(Edit::SetValue {
        id: id_of(alloc, id)?,
        path: path_of(alloc, way)?,
        value,
    })
}

fn set_key(
    alloc: Global,
    action: &str,
    way: Way,
    frame: i64,
    value: i64,
    interp: Interp,
) -> Result<Edit, NoMemory> {
    Ok(Edit::SetKey {
        action: named(alloc, action)?,
        path: path_of(alloc, way)?,
        frame,
        value,
        interp,
    })
}

fn delete_key(alloc: Global, action: &str, way: Way, frame: i64) -> Result<Edit, NoMemory> {
    Ok(Edit::DeleteKey {
        action: named(alloc, action)?,
        path: path_of(alloc, way)?,
        frame,
    })
}

fn switch(
    alloc: Global,
    object: &str,
    modifier: &str,
    mode: Mode,
    on: bool,
) -> Result<Edit, NoMemory> {
    let flag = Flag::Switch {
        object: named(alloc, object)?,
        modifier: named(alloc, modifier)?,
        mode,
    };
    Ok(Edit::SetFlag { flag, on })
}

fn hidden(alloc: Global, pencil: &str, layer: &str, on: bool) -> Result<Edit, NoMemory> {
    let flag = Flag::Hidden {
        pencil: named(alloc, pencil)?,
        layer: named(alloc, layer)?,
    };
    Ok(Edit::SetFlag { flag, on })
}

fn set_layer_key(
    alloc: Global,
    pencil: &str,
    layer: &str,
    frame: i64,
    drawing: i64,
) -> Result<Edit, NoMemory> {
    Ok(Edit::SetLayerKey {
        pencil: named(alloc, pencil)?,
        layer: named(alloc, layer)?,
        frame,
        drawing,
    })
}

fn delete_layer_key(
    alloc: Global,
    pencil: &str,
    layer: &str,
    frame: i64,
) -> Result<Edit, NoMemory> {
    Ok(Edit::DeleteLayerKey {
        pencil: named(alloc, pencil)?,
        layer: named(alloc, layer)?,
        frame,
    })
}

fn set_parent(alloc: Global, object: &str, carrier: Carrier) -> Result<Edit, NoMemory> {
    Ok(Edit::SetParent {
        object: named(alloc, object)?,
        parent: parent_of(alloc, carrier)?,
    })
}

fn set_driver(alloc: Global, id: Id, way: Way, driver: NewDriver) -> Result<Edit, NoMemory> {
    Ok(Edit::SetDriver {
        id: id_of(alloc, id)?,
        path: path_of(alloc, way)?,
        driver,
    })
}

fn clear_driver(alloc: Global, id: Id, way: Way) -> Result<Edit, NoMemory> {
    Ok(Edit::ClearDriver {
        id: id_of(alloc, id)?,
        path: path_of(alloc, way)?,
    })
}

fn add_object(alloc: Global, name: &str, block: Block) -> Result<Edit, NoMemory> {
    Ok(Edit::AddObject {
        name: named(alloc, name)?,
        kind: kind_of(alloc, block)?,
    })
}

fn add_modifier(alloc: Global, object: &str, name: &str, effect: Effect) -> Result<Edit, NoMemory> {
    Ok(Edit::AddModifier {
        object: named(alloc, object)?,
        name: named(alloc, name)?,
        viewport: true,
        render: false,
        effect: effect_of(alloc, effect)?,
    })
}

fn remove_modifier(alloc: Global, object: &str, modifier: &str) -> Result<Edit, NoMemory> {
    Ok(Edit::RemoveModifier {
        object: named(alloc, object)?,
        modifier: named(alloc, modifier)?,
    })
}

fn move_point(
    alloc: Global,
    pencil: &str,
    drawing: i64,
    stroke: i64,
    point: i64,
    to: Whole3,
) -> Result<Edit, NoMemory> {
    Ok(Edit::MovePoint {
        pencil: named(alloc, pencil)?,
        drawing,
        stroke,
        point,
        to,
    })
}

/// The edit that the words say.
pub(super) fn edit_of(alloc: Global, words: Words) -> Result<Edit, NoMemory> {
    match words {
        Words::SetValue(id, way, value) => set_value(alloc, id, way, value),
        Words::SetKey(action, way, frame, value, interp) => {
            set_key(alloc, action, way, frame, value, interp)
        }
        Words::DeleteKey(action, way, frame) => delete_key(alloc, action, way, frame),
        Words::Switch(object, modifier, mode, on) => switch(alloc, object, modifier, mode, on),
        Words::Hidden(pencil, layer, on) => hidden(alloc, pencil, layer, on),
        Words::MovePoint(pencil, drawing, stroke, point, to) => {
            move_point(alloc, pencil, drawing, stroke, point, to)
        }
        Words::SetLayerKey(pencil, layer, frame, drawing) => {
            set_layer_key(alloc, pencil, layer, frame, drawing)
        }
        Words::DeleteLayerKey(pencil, layer, frame) => {
            delete_layer_key(alloc, pencil, layer, frame)
        }
        Words::SetParent(object, carrier) => set_parent(alloc, object, carrier),
        Words::SetDriver(id, way, kind, a) => {
            set_driver(alloc, id, way, driver_of_one(alloc, kind, a)?)
        }
        Words::SetDriverOfTwo(id, way, kind, a, b) => {
            set_driver(alloc, id, way, driver_of_two(alloc, kind, a, b)?)
        }
        Words::ClearDriver(id, way) => clear_driver(alloc, id, way),
        Words::AddObject(name, block) => add_object(alloc, name, block),
        Words::RemoveObject(object) => Ok(Edit::RemoveObject {
            object: named(alloc, object)?,
        }),
        Words::AddModifier(object, name, effect) => add_modifier(alloc, object, name, effect),
        Words::RemoveModifier(object, modifier) => remove_modifier(alloc, object, modifier),
    }
}
