//! A frame of a scene that is finished.
ghost use Rattle.std.specs.Prelude.{◌≡◌, [], ◌++◌, ◌∷◌, OnOk, OnErr};

use crate::output::Out;
use rig_io::{List, NoMemory};
use rig_scene::{CutRead, Mode};
use std::alloc::Global;

/// A published frame: the world transform of each object, its bones and its finished geometry, in the scene's order.
#[derive(Drop)]
pub struct Done {
    /// The frame.
    pub frame: i32,
    /// What it was evaluated for.
    pub mode: Mode,
    /// The reads that were cut, in the order in which they are tested.
    pub cuts: List<CutRead>,
    /// The outputs that show the scene: for each object that of its world transform, those of its bones or that of its finished
    /// geometry.
    pub outs: List<Out>,
}

impl Done {
    /// A frame without outputs.
    pub fn new(alloc: Global, frame: i32, mode: Mode, cuts: List<CutRead>) -> Done
        ensures { result ≡ record { frame = frame; mode = mode; cuts = cuts; outs = [] } }
    {
        Done {
            frame,
            mode,
            cuts,
            outs: List::new(alloc),
        }
    }

    /// Adds an output at the end.
    ///
    /// # Errors
    ///
    /// [`NoMemory`]: the frame is unchanged.
    pub fn add(&mut self, out: Out) -> Result<(), NoMemory>
        ensures ok { OnOk result (self.new ≡ record self.old { outs = self.old.outs ++ out ∷ [] }) }
        ensures err { OnErr result (self.new ≡ self.old) }
    {
        self.outs.push(out)
    }
}

#[cfg(test)]
mod tests {
    use super::*;
    use crate::{SceneTables, Value};

    fn crosses<T: Send + Sync>() {}

    #[test]
    fn frames_and_what_makes_them_cross_threads() {
        crosses::<Out>();
        crosses::<Value>();
        crosses::<Done>();
        crosses::<SceneTables>();
    }
}
