//! The numbers of keys that a scene keeps beside its lists, counted for who makes one.
ghost use Rattle.std.specs.Prelude.{◌≡◌, ◌≤◌, length, sum_by};
ghost use Rattle.rig_scene.specs.declared.limits.TheConstants.{MAX_KEYS, MAX_LAYER_KEYS};
ghost use Rattle.rig_scene.specs.WellFormed.{key_count, layer_key_count};

use crate::action::{Action, Curve};
use crate::pencil::{Layer, PencilData};

/// The number of keys of all curves. The caller guarantees that it is within the limit of a scene.
pub fn key_count(actions: &[Action]) -> usize
    requires { key_count actions.now ≤ MAX_KEYS }
    ensures { result ≡ key_count actions.now }
{
    let mut count = 0;
    for action in actions {
        count += curve_keys(action.curves.as_slice());
    }
    count
}

fn curve_keys(curves: &[Curve]) -> usize
    requires { sum_by (λ c. length c.keys) curves.now ≤ MAX_KEYS }
    ensures { result ≡ sum_by (λ c. length c.keys) curves.now }
{
    curves.iter().map(|curve| curve.keys.len()).sum()
}

/// The number of keys of all layers. The caller guarantees that it is within the limit of a scene.
pub fn layer_key_count(pencils: &[PencilData]) -> usize
    requires { layer_key_count pencils.now ≤ MAX_LAYER_KEYS }
    ensures { result ≡ layer_key_count pencils.now }
{
    let mut count = 0;
    for pencil in pencils {
        count += layer_keys(pencil.layers.as_slice());
    }
    count
}

fn layer_keys(layers: &[Layer]) -> usize
    requires { sum_by (λ l. length l.keys) layers.now ≤ MAX_LAYER_KEYS }
    ensures { result ≡ sum_by (λ l. length l.keys) layers.now }
{
    layers.iter().map(|layer| layer.keys.len()).sum()
}
