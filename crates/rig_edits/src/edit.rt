//! The edits of a scene, by names. Numbers are as they were given: an edit with a number out of range is refused.
ghost use Rattle.std.specs.Prelude.{◌≡◌, IfOk};

use rig_io::{List, NoMemory};
use rig_scene::{Channel, DriverKind, Interp, Mode, Name, Path};
use std::alloc::AllocError;
use std::marker::Model;

/// What can have an action and drivers, by its name.
#[derive(Clone, Debug, Drop, PartialEq, Eq)]
pub enum IdName {
    Object(Name),
    Pencil(Name),
}

/// Three whole numbers, as they were given.
#[derive(Clone, Copy, Debug, PartialEq, Eq)]
pub struct Whole3 {
    pub x: i64,
    pub y: i64,
    pub z: i64,
}

/// A switch of a scene.
#[derive(Clone, Debug, Drop, PartialEq, Eq)]
pub enum Flag {
    /// Whether a modifier of a pencil object takes part in one of the two modes.
    Switch {
        object: Name,
        modifier: Name,
        mode: Mode,
    },
    /// Whether a layer of a pencil is hidden.
    Hidden {
        pencil: Name,
        layer: Name,
    },
}

/// The kind of a new object, with the name of its data.
#[derive(Clone, Debug, Drop, PartialEq, Eq)]
pub enum NewKind {
    Empty,
    Armature(Name),
    Pencil(Name),
}

/// What an object is to be carried by: another object, or a bone of it.
#[derive(Clone, Debug, Drop, PartialEq, Eq)]
pub struct NewParent {
    pub object: Name,
    pub bone: Option<Name>,
}

/// What a new modifier does.
#[derive(Clone, Debug, Drop, PartialEq, Eq)]
pub enum NewEffect {
    /// Scales each point about 0, and then moves it. Both in millionths.
    Offset {
        loc: Whole3,
        scale: i64,
    },
    /// Appends the strokes mirrored, for each axis in turn, at the location of an object or at the origin of the object itself.
    Mirror {
        x: bool,
        y: bool,
        z: bool,
        object: Option<Name>,
    },
    /// Appends copies, `count` in all, each moved by one more offset in millionths.
    Array {
        count: i64,
        offset: Whole3,
    },
}

/// What a new driver reads.
#[derive(Clone, Debug, Drop, PartialEq, Eq)]
pub enum NewVariable {
    /// The evaluated number of a channel.
    Property {
        id: IdName,
        path: Path,
    },
    /// One of the eight numbers of a transform: that of a bone, where one is named, else the object's world or local one.
    Transform {
        object: Name,
        bone: Option<Name>,
        world: bool,
        channel: Channel,
    },
}

/// A driver by names: how it makes one number of its variables, of which it has 1 to 8.
#[derive(Debug, Drop, PartialEq, Eq)]
pub struct NewDriver {
    pub kind: DriverKind,
    pub variables: List<NewVariable>,
}

impl Model for NewDriver {
    ghost use Rattle.std.specs.Prelude.{◌≤◌, length};
    ghost use Rattle.rig_scene.specs.declared.limits.TheConstants.{MAX_VARIABLES};
    ghost use Rattle.rig_edits.specs.DriverByNames.{DriverByNames};

    ghost Value = { DriverByNames };

    ghost view = { λ d. record { kind = d.kind; variables = d.variables } };

    ghost invariant = { λ d. (1 ≤ length d.variables) × (length d.variables ≤ MAX_VARIABLES) };

    ghost inverse = { λ d. record { kind = d.kind; variables = d.variables } };
}

impl Clone for NewDriver {
    ghost is_clone = { λ driver clone. clone ≡ driver };

    fn clone(&self) -> Result<Self, AllocError> {
        Ok(NewDriver {
            kind: self.kind,
            variables: equal_clone(&self.variables)?,
        })
    }
}

// The clone of a list of variables.
fn equal_clone(variables: &List<NewVariable>) -> Result<List<NewVariable>, AllocError>
    ensures { IfOk result (λ clone. clone ≡ variables.now) }
{
    variables.clone()
}

/// An edit of a scene. `SEMANTICS.md` says what each does, and [`apply`](crate::apply) when it is refused.
#[derive(Clone, Debug, Drop, PartialEq, Eq)]
pub enum Edit {
    /// Sets the original number of a channel, in millionths.
    SetValue {
        id: IdName,
        path: Path,
        value: i64,
    },
    /// Adds a key to the curve of a path, or replaces the one at that frame. The value is in millionths.
    SetKey {
        action: Name,
        path: Path,
        frame: i64,
        value: i64,
        interp: Interp,
    },
    /// Takes the key at a frame out of the curve of a path.
    DeleteKey {
        action: Name,
        path: Path,
        frame: i64,
    },
    /// Sets a switch.
    SetFlag {
        flag: Flag,
        on: bool,
    },
    /// Moves a point of a stroke of a drawing, each by its index, to a location in millionths.
    MovePoint {
        pencil: Name,
        drawing: i64,
        stroke: i64,
        point: i64,
        to: Whole3,
    },
    /// Adds a key to a layer, or replaces the one at that frame. From there on the layer shows the drawing of that index.
    SetLayerKey {
        pencil: Name,
        layer: Name,
        frame: i64,
        drawing: i64,
    },
    /// Takes the key at a frame out of a layer.
    DeleteLayerKey {
        pencil: Name,
        layer: Name,
        frame: i64,
    },
    /// Sets what carries an object, or has nothing carry it.
    SetParent {
        object: Name,
        parent: Option<NewParent>,
    },
    /// Replaces the driver of a channel in its place, or adds one behind all others.
    SetDriver {
        id: IdName,
        path: Path,
        driver: NewDriver,
    },
    /// Takes the driver of a channel out.
    ClearDriver {
        id: IdName,
        path: Path,
    },
    /// Adds an object behind all others, with a serial that none had before.
    AddObject {
        name: Name,
        kind: NewKind,
    },
    /// Takes an object out, with its own drivers.
    RemoveObject {
        object: Name,
    },
    /// Adds a modifier behind the others of a pencil object.
    AddModifier {
        object: Name,
        name: Name,
        viewport: bool,
        render: bool,
        effect: NewEffect,
    },
    /// Takes a modifier out of a pencil object's stack.
    RemoveModifier {
        object: Name,
        modifier: Name,
    },
}

impl Edit {
    /// An equal edit with memory of its own.
    ///
    /// # Errors
    ///
    /// [`NoMemory`] where memory is refused.
    pub fn copy(&self) -> Result<Edit, NoMemory>
        ensures { IfOk result (λ copy. copy ≡ self.now) }
    {
        Ok(self.clone()?)
    }
}
