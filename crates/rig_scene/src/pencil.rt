//! Grease Pencil data: drawings of strokes, and layers that show them (Blender Manual, Grease Pencil).
ghost use Rattle.std.specs.Prelude.{◌≡◌};

use crate::id::ObjectId;
use crate::keys::Keyframe;
use crate::name::Name;
use rig_fixed::V3;
use rig_io::List;
use std::alloc::AllocError;

/// Points in order, at least one in a drawing.
#[derive(Debug, Drop, PartialEq, Eq)]
pub struct Stroke {
    pub points: List<V3>,
}

impl Clone for Stroke {
    ghost is_clone = { λ stroke clone. clone ≡ stroke };

    fn clone(&self) -> Result<Self, AllocError> {
        Ok(Stroke {
            points: self.points.copy()?,
        })
    }
}

/// Strokes in order, as a layer or an object shows them.
pub type Strokes = List<Stroke>;

/// What a layer shows from a keyframe on.
#[derive(Clone, Debug, Drop, PartialEq, Eq)]
pub struct Drawing {
    pub strokes: Strokes,
}

/// A layer's keyframe: the index of the drawing that is shown from that frame, from -1,000,000 to
/// 1,000,000, until the next keyframe.
#[derive(Clone, Copy, Debug, PartialEq, Eq)]
pub struct LayerKey {
    pub frame: i32,
    pub drawing: u32,
}

impl Keyframe for LayerKey {
    ghost frame = { λ k. k.frame };

    fn frame(&self) -> i32 {
        self.frame
    }
}

/// A bone of an armature object, by its index.
#[derive(Clone, Copy, Debug, PartialEq, Eq)]
pub struct BoneRef {
    pub object: ObjectId,
    pub bone: u32,
}

/// A layer: the drawings of its keyframes, by rising frames, moved by an offset and carried by a bone
/// where it is bound to one.
#[derive(Debug, Drop, PartialEq, Eq)]
pub struct Layer {
    pub name: Name,
    pub hidden: bool,
    pub offset: V3,
    pub bound: Option<BoneRef>,
    pub keys: List<LayerKey>,
}

impl Clone for Layer {
    ghost is_clone = { λ layer clone. clone ≡ layer };

    fn clone(&self) -> Result<Self, AllocError> {
        Ok(Layer {
            name: self.name.clone()?,
            hidden: self.hidden,
            offset: self.offset,
            bound: self.bound,
            keys: self.keys.copy()?,
        })
    }
}

/// Drawings and layers, from the bottom layer to the top one, that several objects may share.
#[derive(Clone, Debug, Drop, PartialEq, Eq)]
pub struct PencilData {
    pub name: Name,
    pub action: Option<u32>,
    pub drawings: List<Drawing>,
    pub layers: List<Layer>,
}
