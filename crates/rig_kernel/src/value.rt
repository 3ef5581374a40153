//! What an operation gives.
ghost use Rattle.std.specs.Prelude.{◌≡◌, IfOk};

use rig_fixed::{Fx, Xform};
use rig_io::{List, NoMemory, Share};
use rig_scene::Strokes;
use std::alloc::Global;
use std::marker::Model;
use std::sync::Arc;

/// What an operation gives.
#[derive(Drop)]
pub enum Value {
    /// What each curve of an action gives, in order: none for a curve without keys. Of the time, the frame alone.
    Numbers(List<Option<Fx>>),
    /// The number of a driven channel, in millionths.
    Number(Fx),
    /// A transform: of an object relative to its parent or in the world, or of a bone in the space of its armature.
    Transform(Xform),
    /// The strokes of a layer, or of a pencil object.
    Strokes(SharedStrokes),
}

/// Strokes with any number of owners. Contracts see the strokes.
#[derive(Drop)]
pub struct SharedStrokes {
    strokes: Arc<Strokes, Global>,
}

impl Model for SharedStrokes {
    ghost use Rattle.std.specs.Prelude.{List};
    ghost use Rattle.rig_scene.specs.declared.pencil.Stroke.{Stroke};

    ghost Value = { List Stroke };

    ghost view = { λ s. s.strokes.value };
}

impl SharedStrokes {
    /// Strokes with one owner.
    ///
    /// # Errors
    ///
    /// [`NoMemory`] where memory is refused.
    pub fn new(alloc: Global, strokes: Strokes) -> Result<SharedStrokes, NoMemory>
        ensures { IfOk result (λ new. new ≡ strokes) }
    {
        Ok(SharedStrokes {
            strokes: Arc::new(alloc, strokes)?,
        })
    }

    /// The strokes.
    pub fn get(&self) -> &Strokes
        ensures { result.now ≡ self.now }
    {
        &self.strokes
    }
}

impl Share for SharedStrokes {
    fn share(&self) -> Result<Self, NoMemory> {
        Ok(SharedStrokes {
            strokes: Arc::try_clone(&self.strokes)?,
        })
    }
}
