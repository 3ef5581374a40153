//! Keys put into a list of keys by rising frames, and taken out of it. The list is searched by halves.
ghost use Rattle.std.specs.Prelude.{◌≡◌, ◌+◌, length, IfOk, IsTrue, OnOk, OnErr};
ghost use Rattle.std.specs.Int.{from_bool};
ghost use Rattle.std.specs.Ordering.{int_eq};
ghost use Rattle.std.specs.List.{list_any};
ghost use Rattle.rig_scene.specs.Keys.{are_frames_rising};
ghost use Rattle.rig_edits.specs.Edited.{put_key, drop_key};
ghost use Rattle.rig_edits.specs.KeyPlaces.{KeyIndex};

use rig_io::{List, NoMemory};
use rig_scene::{Keyframe, index_from};

/// The index of the key at the frame; where there is none, the index at which one is put in, as an error.
fn key_index<K: Keyframe>(keys: &List<K>, frame: i32) -> Result<usize, usize>
    requires { IsTrue (are_frames_rising K.frame keys.now) }
    ensures { KeyIndex K.frame frame keys.now result }
{
    let index = index_from(keys.as_slice(), frame);
    if index < keys.len() && keys.get(index).frame() == frame {
        Ok(index)
    } else {
        Err(index)
    }
}

/// Whether a key stands at the frame.
pub(crate) fn has_key<K: Keyframe>(keys: &List<K>, frame: i32) -> bool
    requires { IsTrue (are_frames_rising K.frame keys.now) }
    ensures { result ≡ list_any (λ k. int_eq (K.frame k) frame) keys.now }
{
    matches!(key_index(keys, frame), Ok(_))
}

/// Puts a key in, in the place of the one at its frame where there is one. Answers whether it is one more.
///
/// # Errors
///
/// [`NoMemory`]: the keys are unchanged.
pub(crate) fn put_key<K: Keyframe + Copy>(keys: &mut List<K>, key: K) -> Result<bool, NoMemory>
    requires { IsTrue (are_frames_rising K.frame keys.old) }
    ensures ok { OnOk result (keys.new ≡ put_key K.frame key keys.old) }
    ensures count { IfOk result (λ more. length keys.new ≡ length keys.old + from_bool more) }
    ensures err { OnErr result (keys.new ≡ keys.old) }
{
    match key_index(keys, key.frame()) {
        Ok(index) => {
            keys.set(index, key);
            Ok(false)
        }
        Err(index) => {
            keys.insert(index, key)?;
            Ok(true)
        }
    }
}

/// Takes the key at the frame out, where there is one. Answers whether it is one less.
pub(crate) fn drop_key<K: Keyframe + Copy>(keys: &mut List<K>, frame: i32) -> bool
    requires { IsTrue (are_frames_rising K.frame keys.old) }
    ensures keys { keys.new ≡ drop_key K.frame frame keys.old }
    ensures count { length keys.new + from_bool result ≡ length keys.old }
{
    match key_index(keys, frame) {
        Ok(index) => {
            keys.remove(index);
            true
        }
        Err(_) => false,
    }
}
