//! Keyframes by rising frames, and the one search over them: by halves, with no allocation.
ghost use Rattle.std.specs.Prelude.{◌≡◌, ◌≤◌, length, take, drop, filter, slice_get, IsTrue, int_le, int_lt};
ghost use Rattle.std.specs.List.{find};
ghost use Rattle.std.specs.Option.{option_copied};
ghost use Rattle.rig_scene.specs.Keys.{are_frames_rising, key_up_to, key_after};

/// What stands at a frame of a curve or of a layer.
pub trait Keyframe {
    ghost use Rattle.std.specs.Prelude.{◌≡◌, ℤ};

    ghost frame: { Self → ℤ };

    /// The frame at which it stands.
    fn frame(&self) -> i32
        ensures { result ≡ frame self.now };
}

/// The index of the first key after the frame, or the number of keys where none is: the keys before that index are those
/// at or before the frame.
pub fn index_after<K: Keyframe>(keys: &[K], frame: i32) -> usize
    requires { IsTrue (are_frames_rising K.frame keys.now) }
    ensures within { result ≤ length keys.now }
    ensures before { filter (λ k. int_le (K.frame k) frame) keys.now ≡ take result keys.now }
    ensures after { key_after K.frame frame keys.now ≡ slice_get keys.now result }
    ensures rest { filter (λ k. int_lt frame (K.frame k)) keys.now ≡ drop result keys.now }
{
    keys.partition_point(|key| key.frame() <= frame)
}

/// The last key at or before the frame, and the first key after it.
pub fn keys_around<K: Keyframe>(keys: &[K], frame: i32) -> (Option<&K>, Option<&K>)
    requires { IsTrue (are_frames_rising K.frame keys.now) }
    ensures before { option_copied result.0 ≡ key_up_to K.frame frame keys.now }
    ensures after { option_copied result.1 ≡ key_after K.frame frame keys.now }
{
    let next = index_after(keys, frame);
    (keys[..next].last(), keys.get(next))
}

/// The index of the first key at or after the frame, or the number of keys where none is: there a key of that frame stands,
/// or is to be put in so that the frames still rise.
pub fn index_from<K: Keyframe>(keys: &[K], frame: i32) -> usize
    requires { IsTrue (are_frames_rising K.frame keys.now) }
    ensures within { result ≤ length keys.now }
    ensures before { filter (λ k. int_lt (K.frame k) frame) keys.now ≡ take result keys.now }
    ensures next { find (λ k. int_le frame (K.frame k)) keys.now ≡ slice_get keys.now result }
    ensures rest { filter (λ k. int_le frame (K.frame k)) keys.now ≡ drop result keys.now }
{
    keys.partition_point(|key| key.frame() < frame)
}
