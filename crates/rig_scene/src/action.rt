//! Actions: F-curves by the path of the channel that they animate (Blender Manual, F-curves).
ghost use Rattle.std.specs.Prelude.{◌≡◌};

use crate::keys::Keyframe;
use crate::name::Name;
use crate::path::Path;
use rig_fixed::Fx;
use rig_io::List;
use std::alloc::AllocError;

/// How a curve goes on from a key, up to the next one.
#[derive(Clone, Copy, Debug, PartialEq, Eq)]
pub enum Interp {
    /// The key's value.
    Constant,
    /// A straight line to the next key.
    Linear,
}

/// A keyframe: the value in millionths at a frame from -1,000,000 to 1,000,000. It takes 16 bytes.
#[derive(Clone, Copy, Debug, PartialEq, Eq)]
pub struct Key {
    pub frame: i32,
    pub interp: Interp,
    pub value: Fx,
}

impl Keyframe for Key {
    ghost frame = { λ k. k.frame };

    fn frame(&self) -> i32 {
        self.frame
    }
}

/// The keys of one channel, by rising frames.
#[derive(Debug, Drop, PartialEq, Eq)]
pub struct Curve {
    pub path: Path,
    pub keys: List<Key>,
}

impl Clone for Curve {
    ghost is_clone = { λ curve clone. clone ≡ curve };

    fn clone(&self) -> Result<Self, AllocError> {
        Ok(Curve {
            path: self.path.clone()?,
            keys: self.keys.copy()?,
        })
    }
}

/// Curves that several objects may share, each path once.
#[derive(Clone, Debug, Drop, PartialEq, Eq)]
pub struct Action {
    pub name: Name,
    pub curves: List<Curve>,
}
