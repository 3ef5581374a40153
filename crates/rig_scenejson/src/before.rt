//! What the first pass keeps of a list while it goes through it: the names so far, and how much room is left.
use rig_io::List;
use rig_names::{Distinct, Names};
use rig_scene::{Name, Path};

/// The curves of an action before one of them.
#[derive(Drop)]
pub(crate) struct CurvesBefore {
    /// Their paths.
    pub(crate) paths: Distinct<Path>,
    /// How many more keys the scene may have.
    pub(crate) keys_left: usize,
}

/// The actions before one of them.
#[derive(Drop)]
pub(crate) struct ActionsBefore {
    pub(crate) names: Names,
    /// How many more curves the scene may have.
    pub(crate) curves_left: usize,
    /// How many more keys the scene may have.
    pub(crate) keys_left: usize,
}

/// The armatures before one of them.
#[derive(Drop)]
pub(crate) struct ArmaturesBefore {
    pub(crate) names: Names,
    /// The names of the bones of each.
    pub(crate) bones: List<Names>,
}

/// The layers of a pencil before one of them.
#[derive(Drop)]
pub(crate) struct LayersBefore {
    pub(crate) names: Names,
    /// How many more keys of layers the scene may have.
    pub(crate) keys_left: usize,
}

/// The pencils before one of them.
#[derive(Drop)]
pub(crate) struct PencilsBefore {
    pub(crate) names: Names,
    /// The names of the layers of each.
    pub(crate) layers: List<Names>,
    /// How many more drawings the scene may have.
    pub(crate) drawings_left: usize,
    /// How many more points the scene may have.
    pub(crate) points_left: usize,
    /// How many more keys of layers the scene may have.
    pub(crate) keys_left: usize,
}

/// The objects before one of them.
#[derive(Drop)]
pub(crate) struct ObjectsBefore {
    pub(crate) names: Names,
    /// How many more pencil objects the scene may have.
    pub(crate) pencils_left: usize,
    /// What carries what is bound to each.
    pub(crate) rigs: List<Rig>,
}

/// Which armature an object has.
#[derive(Clone, Copy, Debug, PartialEq, Eq)]
pub(crate) enum Rig {
    /// The object is no armature object.
    NoArmature,
    /// An armature object whose `data` names no armature.
    UnknownArmature,
    /// An armature object, and the index of its armature.
    Armature(u32),
}

/// The channel that a driver drives, by names.
#[derive(Debug, Drop, PartialEq, Eq, Hash)]
pub(crate) struct Target {
    /// Whether the id is a pencil, else an object.
    pub(crate) is_pencil: bool,
    /// The name of the object or the pencil.
    pub(crate) id: Name,
    pub(crate) path: Path,
}

/// The names of a scene, as the first pass met them.
#[derive(Drop)]
pub(crate) struct Catalog {
    pub(crate) actions: Names,
    pub(crate) armatures: Names,
    /// The names of the bones of each armature.
    pub(crate) bones: List<Names>,
    pub(crate) pencils: Names,
    /// The names of the layers of each pencil.
    pub(crate) layers: List<Names>,
    pub(crate) objects: Names,
    /// What carries what is bound to each object.
    pub(crate) rigs: List<Rig>,
}
