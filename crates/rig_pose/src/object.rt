//! Transforms of objects: of their eight numbers, and in the space of what carries them.
ghost use Rattle.std.specs.Prelude.{◌≡◌, pos};
ghost use Rattle.std.specs.Int.{int_max};
ghost use Rattle.std.specs.Option.{option_copied};
ghost use Rattle.rig_scene.specs.Pose.{transform_of, carried_by};

use rig_fixed::{Fx, Quat, Xform, compose};
use rig_scene::Channels;

/// The transform of eight numbers, all in millionths: the rotation is brought to one unit, and the scale is at least 1.
pub fn local_of(c: &Channels) -> Xform
    ensures { result ≡ transform_of c.now }
{
    Xform {
        loc: c.loc,
        rot: Quat::normal(c.rot),
        scale: positive_scale(c.scale),
    }
}

/// A scale that is at least 1.
fn positive_scale(scale: Fx) -> Fx
    ensures { result ≡ int_max (pos 1) scale }
{
    scale.max(Fx::new(1))
}

/// The transform `local` within the space of a parent, where there is one.
pub fn world_of(parent: Option<&Xform>, local: &Xform) -> Xform
    ensures { result ≡ carried_by (option_copied parent.entry) local.now }
{
    match parent {
        Some(parent) => compose(parent, local),
        None => *local,
    }
}
