//! The outputs that an operation takes, by the index of its in-link.
ghost use Rattle.std.specs.Prelude.{◌≡◌, slice_get, IfSome};
ghost use Rattle.std.specs.Option.{option_copied};
ghost use Rattle.rig_scene.specs.declared.operation.OpId.TheVariants.{Time};
ghost use Rattle.rig_scene.specs.Value.{transform_in, numbers_in};
ghost use Rattle.rig_laws.specs.Output.{frame_at, transform_at, numbers_at};
ghost use Rattle.rig_kernel.specs.Values.{value_of};

use crate::output::Out;
use crate::value::Value;
use rig_fixed::{Fx, Xform};

/// The outputs that an operation takes from its in-links, in order. A slice of [`Out`] is one; a graph that keeps outputs by
/// number reads them where they stand.
pub trait Inputs {
    ghost use Rattle.std.specs.Prelude.{List};
    ghost use Rattle.rig_laws.specs.Output.{Output};

    /// The outputs in order.
    ghost list: { Self → List Output };

    /// The output at an index, where there is one.
    fn get(&self, index: usize) -> Option<&Out>
        ensures { option_copied result ≡ slice_get (list self.now) index };
}

impl<'a> Inputs for &'a [Out] {
    ghost list = { λ outs. outs.now };

    fn get(&self, index: usize) -> Option<&Out> {
        let outs: &[Out] = self;
        outs.get(index)
    }
}

/// The frame that an input gives, where it is the time.
pub(crate) fn frame_at<I: Inputs>(inputs: &I, k: usize) -> i32
    requires { IfSome (slice_get (I.list inputs.now) k) (λ i. i.op ≡ Time) }
    ensures { result ≡ frame_at (I.list inputs.now) k }
{
    match inputs.get(k) {
        Some(out) => out.frame(),
        None => 0,
    }
}

/// The transform that an input gives, the identity where it gives none.
pub(crate) fn transform_at<I: Inputs>(inputs: &I, k: usize) -> Xform
    ensures { result ≡ transform_at (I.list inputs.now) k }
{
    match inputs.get(k) {
        Some(out) => transform_in(out.value()),
        None => Xform::identity(),
    }
}

fn transform_in(value: &Value) -> Xform
    ensures { result ≡ transform_in (value_of value.now) }
{
    match value {
        Value::Transform(transform) => *transform,
        _ => Xform::identity(),
    }
}

/// The numbers that an input gives, none where it gives no numbers.
pub(crate) fn numbers_at<'a, I: Inputs>(inputs: &'a I, k: usize) -> &'a [Option<Fx>]
    ensures { result.now ≡ numbers_at (I.list inputs.now) k }
{
    match inputs.get(k) {
        Some(out) => numbers_in(out.value()),
        None => &[],
    }
}

fn numbers_in(value: &Value) -> &[Option<Fx>]
    ensures { result.now ≡ numbers_in (value_of value.now) }
{
    match value {
        Value::Numbers(numbers) => numbers.as_slice(),
        _ => &[],
    }
}
