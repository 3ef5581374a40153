//! Which drawing a layer holds at a frame (Blender Manual, Grease Pencil, Layers).
ghost use Rattle.std.specs.Prelude.{◌≡◌, ◌↔◌, ◌<ℤ◌, All, IsTrue, IsNone};
ghost use Rattle.rig_scene.specs.Keys.{are_frames_rising};
ghost use Rattle.rig_scene.specs.Layer.{held_drawing};

use rig_scene::{Layer, keys_around};

/// The index of the drawing that a layer holds at a frame: that of its last key at or before the frame. `None` comes
/// exactly where each key is after it. No allocation.
pub fn held(layer: &Layer, frame: i32) -> Option<u32>
    requires { IsTrue (are_frames_rising (λ k. k.frame) layer.now.keys) }
    ensures drawing { result ≡ held_drawing layer.now.keys frame }
    ensures none { IsNone result ↔ All (λ k. frame <ℤ k.frame) layer.now.keys }
{
    let (key, _) = keys_around(layer.keys.as_slice(), frame);
    Some(key?.drawing)
}
