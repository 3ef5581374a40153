//! The output of an operation.
ghost use Rattle.std.specs.Prelude.{◌≡◌, false, IfOk, OnOk, IsSome, IsTrue};
ghost use Rattle.rig_scene.specs.declared.operation.OpId.TheVariants.{Time};
ghost use Rattle.rig_scene.specs.StandsFor.{quantity_of};
ghost use Rattle.rig_scene.specs.Value.{Numbers};
ghost use Rattle.rig_laws.specs.Output.{rest_output, rest_value, frame_in, is_time, is_timed};
ghost use Rattle.rig_kernel.specs.Values.{value_of};

use crate::value::{SharedStrokes, Value};
use rig_fixed::{Fx, Xform};
use rig_io::{List, NoMemory, Share};
use rig_scene::OpId;
use std::alloc::Global;
use std::marker::Model;
use std::sync::Arc;

// What an output holds.
#[derive(Drop)]
pub(crate) struct Made {
    pub(crate) op: OpId,
    pub(crate) value: Value,
    pub(crate) is_rest: bool,
}

/// An operation, what it gave, and whether that is the rest value that a cut link gives in its place. `run_op` and [`rest`]
/// alone make one.
#[derive(Drop)]
pub struct Out {
    pub(crate) made: Arc<Made, Global>,
}

impl Model for Out {
    ghost use Rattle.std.specs.Prelude.{IsTrue};
    ghost use Rattle.rig_laws.specs.Output.{Output, is_timed};
    ghost use Rattle.rig_kernel.specs.Values.{value_of};

    ghost Value = { Output };

    ghost view = { λ o. record {
      op = o.made.value.op;
      value = value_of o.made.value.value;
      is_rest = o.made.value.is_rest;
    } };

    ghost invariant = { λ o. IsTrue (is_timed o.made.value.op (value_of o.made.value.value)) };
}

impl Out {
    /// What an operation gave, which is no rest value. It is written where a spare output stands, if that one has no other
    /// owner: nothing is allocated then where that one was of the same operation.
    ///
    /// # Errors
    ///
    /// [`NoMemory`] where memory is refused.
    pub(crate) fn new(
        alloc: Global,
        spare: Option<Out>,
        op: &OpId,
        value: Value,
    ) -> Result<Out, NoMemory>
        requires { IsTrue (is_timed op.now (value_of value)) }
        ensures { IfOk result (λ out. out ≡ record { op = op.now; value = value_of value; is_rest = false }) }
    {
        match spare {
            Some(spare) => spare.rewritten(alloc, op, value),
            None => Out::with_memory(alloc, op, value),
        }
    }

    /// The operation.
    pub fn op(&self) -> &OpId
        ensures { result.now ≡ self.now.op }
    {
        &self.made.op
    }

    /// What it gave.
    pub fn value(&self) -> &Value
        ensures { value_of result.now ≡ self.now.value }
    {
        &self.made.value
    }

    /// The frame that the time gave.
    pub(crate) fn frame(&self) -> i32
        requires { self.now.op ≡ Time }
        ensures value { result ≡ frame_in self.now.value }
    {
        match &self.made.value {
            Value::Numbers(numbers) => frame_of(numbers),
            _ => 0,
        }
    }

    /// Whether that is a rest value.
    pub fn is_rest(&self) -> bool
        ensures { result ≡ self.now.is_rest }
    {
        self.made.is_rest
    }
}

impl Out {
    fn with_memory(alloc: Global, op: &OpId, value: Value) -> Result<Out, NoMemory>
        requires { IsTrue (is_timed op.now (value_of value)) }
        ensures { IfOk result (λ out. out ≡ record { op = op.now; value = value_of value; is_rest = false }) }
    {
        Ok(Out {
            made: Arc::new(
                alloc,
                Made {
                    op: op.copy()?,
                    value,
                    is_rest: false,
                },
            )?,
        })
    }

    // The same in the memory of this one, if it has no other owner.
    fn rewritten(self, alloc: Global, op: &OpId, value: Value) -> Result<Out, NoMemory>
        requires { IsTrue (is_timed op.now (value_of value)) }
        ensures { IfOk result (λ out. out ≡ record { op = op.now; value = value_of value; is_rest = false }) }
    {
        let Out { made: mut place } = self;
        match Arc::get_mut(&mut place) {
            Some(made) => {
                set_operation(&mut made.op, op)?;
                made.value = value;
                made.is_rest = false;
                Ok(Out { made: place })
            }
            None => Out::with_memory(alloc, op, value),
        }
    }
}

// Writes an operation over another, where they differ.
fn set_operation(place: &mut OpId, op: &OpId) -> Result<(), NoMemory>
    ensures { OnOk result (place.new ≡ op.now) }
{
    if *place == *op {
        return Ok(());
    }
    *place = op.copy()?;
    Ok(())
}

// The frame of a value of the time.
fn frame_of(numbers: &List<Option<Fx>>) -> i32
    requires { IsTrue (is_time (Numbers numbers.now)) }
    ensures { result ≡ frame_in (Numbers numbers.now) }
{
    match numbers.as_slice().first() {
        Some(Some(frame)) => frame.get() as i32,
        _ => 0,
    }
}

/// The rest value of an operation that stands for a quantity, which a cut link gives in its place: 0 for a driven channel, the identity
/// for a transform, no strokes for a layer or a geometry.
///
/// # Errors
///
/// [`NoMemory`] where memory is refused.
pub fn rest(alloc: Global, op: &OpId) -> Result<Out, NoMemory>
    requires { IsSome (quantity_of op.now) }
    ensures { IfOk result (λ out. out ≡ rest_output op.now) }
{
    let value = rest_value(alloc, op)?;
    Ok(Out {
        made: Arc::new(
            alloc,
            Made {
                op: op.copy()?,
                value,
                is_rest: true,
            },
        )?,
    })
}

fn rest_value(alloc: Global, op: &OpId) -> Result<Value, NoMemory>
    requires { IsSome (quantity_of op.now) }
    ensures { IfOk result (λ value. value_of value ≡ rest_value op.now) }
{
    Ok(match op {
        OpId::Driver(_, _) => Value::Number(Fx::ZERO),
        OpId::Local(_) | OpId::World(_) | OpId::Bone(_, _) => Value::Transform(Xform::identity()),
        OpId::Layer(_, _) | OpId::Geometry(_) | OpId::ModifierOp(_, _) => {
            Value::Strokes(SharedStrokes::new(alloc, List::new(alloc))?)
        }
        _ => Value::Numbers(List::new(alloc)),
    })
}

impl Share for Out {
    fn share(&self) -> Result<Self, NoMemory> {
        Ok(Out {
            made: Arc::try_clone(&self.made)?,
        })
    }
}
