//! A whole scene, with the conditions over its records.
ghost use Rattle.std.specs.Prelude.{◌≡◌, IfOk};

use crate::action::Action;
use crate::armature::ArmatureData;
use crate::driver::Driver;
use crate::object::Object;
use crate::pencil::PencilData;
use rig_io::{List, NoMemory};
use std::alloc::AllocError;
use std::marker::Model;

/// The records of a scene. Names are distinct in their lists, whatever a record names is there and of the
/// kind that is wanted, frames of keys rise, ids rise and lie below `next`, and the counts keep the limits.
/// `key_count` is the number of keys of all curves, and `layer_key_count` that of the keys of all layers: they are kept so
/// that nobody counts again ([`key_count`](crate::key_count) and [`layer_key_count`](crate::layer_key_count) give them to
/// who makes a scene of lists). Contracts see it as the record of its lists, which determine both numbers.
#[derive(Debug, Drop)]
pub struct Scene {
    pub actions: List<Action>,
    pub armatures: List<ArmatureData>,
    pub pencils: List<PencilData>,
    pub objects: List<Object>,
    pub drivers: List<Driver>,
    pub next: u32,
    pub key_count: usize,
    pub layer_key_count: usize,
}

impl Model for Scene {
    ghost use Rattle.rig_scene.specs.Scene.{SceneRecord};
    ghost use Rattle.rig_scene.specs.WellFormed.{CountedScene};

    ghost Value = { SceneRecord };

    ghost view = { λ s. record {
      actions = s.actions;
      armatures = s.armatures;
      pencils = s.pencils;
      objects = s.objects;
      drivers = s.drivers;
      next = s.next;
    } };

    ghost invariant = { λ s. CountedScene (record {
      actions = s.actions;
      armatures = s.armatures;
      pencils = s.pencils;
      objects = s.objects;
      drivers = s.drivers;
      next = s.next;
    }) s.key_count s.layer_key_count };
}

impl Clone for Scene {
    ghost is_clone = { λ scene clone. clone ≡ scene };

    fn clone(&self) -> Result<Self, AllocError> {
        Ok(Scene {
            actions: equal_clone(&self.actions)?,
            armatures: equal_clone(&self.armatures)?,
            pencils: equal_clone(&self.pencils)?,
            objects: equal_clone(&self.objects)?,
            drivers: equal_clone(&self.drivers)?,
            next: self.next,
            key_count: self.key_count,
            layer_key_count: self.layer_key_count,
        })
    }
}

impl Scene {
    /// An equal scene with memory of its own.
    ///
    /// # Errors
    ///
    /// [`NoMemory`] where memory is refused.
    pub fn copy(&self) -> Result<Self, NoMemory>
        ensures { IfOk result (λ copy. copy ≡ self.now) }
    {
        Ok(self.clone()?)
    }
}

// The clone of a list whose values have equal clones.
fn equal_clone<T: Clone>(list: &List<T>) -> Result<List<T>, AllocError>
    requires { (value clone : T) → T.is_clone value clone → clone ≡ value }
    ensures { IfOk result (λ clone. clone ≡ list.now) }
{
    list.clone()
}

#[cfg(test)]
mod tests {
    use super::*;
    use crate::{
        Curve, Drawing, Driver, Key, Kind, Layer, Modifier, Name, OpId, Path, Quantity, RestBone,
        Stroke, Variable,
    };

    fn crosses<T: Send + Sync>() {}

    #[test]
    fn scenes_and_what_they_hold_cross_threads() {
        crosses::<Scene>();
        crosses::<Action>();
        crosses::<Curve>();
        crosses::<Key>();
        crosses::<ArmatureData>();
        crosses::<RestBone>();
        crosses::<PencilData>();
        crosses::<Layer>();
        crosses::<Drawing>();
        crosses::<Stroke>();
        crosses::<Object>();
        crosses::<Kind>();
        crosses::<Modifier>();
        crosses::<Driver>();
        crosses::<Variable>();
        crosses::<Name>();
        crosses::<Path>();
        crosses::<Quantity>();
        crosses::<OpId>();
    }
}
