//! One operation, run.
ghost use Rattle.std.specs.Prelude.{◌≡◌, ℤ, List, [], ◌∷◌, false, map, Some, IfOk, IsTrue};
ghost use Rattle.std.specs.List.{Contains};
ghost use Rattle.rig_io.specs.Faults.{raised};
ghost use Rattle.rig_scene.specs.declared.modifier.Mode.{Mode};
ghost use Rattle.rig_scene.specs.declared.operation.OpId.TheVariants.{PoseDone};
ghost use Rattle.rig_scene.specs.Operations.{operations, ins};
ghost use Rattle.rig_scene.specs.Value.{Numbers, Strokes};
ghost use Rattle.rig_scene.specs.WellFormed.{is_frame};
ghost use Rattle.rig_laws.specs.Kernel.{kernel};
ghost use Rattle.rig_laws.specs.OperationValue.{operation_value};
ghost use Rattle.rig_laws.specs.Output.{output_at, Output, link_of};
ghost use Rattle.rig_kernel.specs.Tables.{table_parts, AreTables};
ghost use Rattle.rig_kernel.specs.Values.{value_of};

use crate::animation::{animation, pose_init};
use crate::driver::driver;
use crate::geometry::{geometry, geometry_done, modifier};
use crate::inputs::Inputs;
use crate::layer::layer;
use crate::output::Out;
use crate::pose::bone;
use crate::records::conditions;
use crate::tables::SceneTables;
use crate::transform::{local, world};
use crate::value::{SharedStrokes, Value};
use rig_fixed::Fx;
use rig_io::{List, NoMemory, Tally};
use rig_scene::{Mode, ObjectId, OpId, Scene, Strokes};
use std::alloc::Global;

/// Runs one operation of a scene: its value over `inputs`, the outputs of the operations that its in-links name, in their order.
/// `tables` are those of the scene, and `frame` is the frame to be evaluated, from -1,000,000 to 1,000,000. `tally` counts one
/// more operation, whatever the answer is.
///
/// # Errors
///
/// [`NoMemory`] where memory is refused.
pub fn run_op<Y: Tally>(
    alloc: Global,
    op: &OpId,
    scene: &Scene,
    tables: &SceneTables,
    mode: Mode,
    frame: i32,
    inputs: &[Out],
    tally: &mut Y,
) -> Result<Out, NoMemory>
    requires op { Contains (operations scene.now) op.now }
    requires tables { AreTables tables.now (table_parts scene.now) }
    requires frame { IsTrue (is_frame frame) }
    requires inputs { map link_of inputs.now ≡ ins scene.now op.now }
    ensures value { IfOk result (λ out. kernel scene.now mode frame op.now inputs.now ≡ Some out.value) }
    ensures op { IfOk result (λ out. out.op ≡ op.now) }
    ensures kept { IfOk result (λ out. out.is_rest ≡ false) }
    ensures from_scratch { inputs.now ≡ map (output_at (operation_value scene.now mode frame)) (ins scene.now op.now) →
        IfOk result (λ out. out.value ≡ operation_value scene.now mode frame op.now) }
    ensures tick { Y.count tally.new ≡ raised (Y.count tally.old) }
{
    run_op_into(alloc, None, op, scene, tables, mode, frame, &inputs, tally)
}

/// The same over inputs that stand anywhere, and in the memory of an output that is no longer wanted, if there is such a `spare`
/// and it has no other owner.
///
/// # Errors
///
/// [`NoMemory`] where memory is refused.
pub fn run_op_into<I: Inputs, Y: Tally>(
    alloc: Global,
    spare: Option<Out>,
    op: &OpId,
    scene: &Scene,
    tables: &SceneTables,
    mode: Mode,
    frame: i32,
    inputs: &I,
    tally: &mut Y,
) -> Result<Out, NoMemory>
    requires op { Contains (operations scene.now) op.now }
    requires tables { AreTables tables.now (table_parts scene.now) }
    requires frame { IsTrue (is_frame frame) }
    requires inputs { map link_of (I.list inputs.now) ≡ ins scene.now op.now }
    ensures value { IfOk result (λ out. kernel scene.now mode frame op.now (I.list inputs.now) ≡ Some out.value) }
    ensures op { IfOk result (λ out. out.op ≡ op.now) }
    ensures kept { IfOk result (λ out. out.is_rest ≡ false) }
    ensures from_scratch { I.list inputs.now ≡ map (output_at (operation_value scene.now mode frame)) (ins scene.now op.now) →
        IfOk result (λ out. out.value ≡ operation_value scene.now mode frame op.now) }
    ensures tick { Y.count tally.new ≡ raised (Y.count tally.old) }
{
    tally.tick();
    conditions(scene);
    let value = value(alloc, op, scene, tables, mode, frame, inputs)?;
    Out::new(alloc, spare, op, value)
}

// The value of an operation over its inputs.
fn value<I: Inputs>(
    alloc: Global,
    op: &OpId,
    scene: &Scene,
    tables: &SceneTables,
    mode: Mode,
    frame: i32,
    inputs: &I,
) -> Result<Value, NoMemory>
    requires op { Contains (operations scene.now) op.now }
    requires tables { AreTables tables.now (table_parts scene.now) }
    requires frame { IsTrue (is_frame frame) }
    requires inputs { map link_of (I.list inputs.now) ≡ ins scene.now op.now }
    ensures { IfOk result (λ value. kernel scene.now mode frame op.now (I.list inputs.now) ≡ Some (value_of value)) }
{
    match op {
        OpId::Time => time(alloc, frame),
        OpId::Animation(id) => Ok(Value::Numbers(animation(alloc, scene, *id, inputs)?)),
        OpId::Driver(_, _) => Ok(Value::Number(driver(scene, tables, op, inputs))),
        OpId::Local(o) => Ok(Value::Transform(local(scene, tables, *o, inputs))),
        OpId::World(o) => Ok(Value::Transform(world(scene, *o, inputs))),
        OpId::PoseInit(o) => Ok(Value::Numbers(pose_init(alloc, scene, *o, inputs)?)),
        OpId::Bone(o, b) => Ok(Value::Transform(bone(scene, tables, *o, *b, inputs))),
        OpId::PoseDone(o) => Ok(pose_done(alloc, scene, *o)),
        OpId::Layer(p, l) => shared(alloc, layer(alloc, scene, tables, *p, *l, inputs)?),
        OpId::Geometry(o) => Ok(Value::Strokes(geometry(alloc, scene, *o, inputs)?)),
        OpId::ModifierOp(o, i) => Ok(Value::Strokes(modifier(alloc, scene, *o, *i, mode, inputs)?)),
        OpId::GeometryDone(o) => Ok(Value::Strokes(geometry_done(alloc, scene, *o, inputs)?)),
    }
}

// The frame, as the time gives it.
fn time(alloc: Global, frame: i32) -> Result<Value, NoMemory>
    requires { IsTrue (is_frame frame) }
    ensures { IfOk result (λ value. value_of value ≡ Numbers (Some frame ∷ [])) }
{
    let number = Fx::new(frame as i64);
    Ok(Value::Numbers(List::from(vec![in alloc; Some(number)]?)))
}

// All bones of an object, which give nothing of their own.
fn pose_done(alloc: Global, scene: &Scene, o: ObjectId) -> Value
    requires { Contains (operations scene.now) (PoseDone o) }
    ensures { (mode : Mode) (frame : ℤ) (inputs : List Output) → kernel scene.now mode frame (PoseDone o) inputs ≡ Some (value_of result) }
{
    conditions(scene);
    Value::Numbers(List::new(alloc))
}

// Strokes with one owner.
fn shared(alloc: Global, strokes: Strokes) -> Result<Value, NoMemory>
    ensures { IfOk result (λ value. value_of value ≡ Strokes strokes) }
{
    Ok(Value::Strokes(SharedStrokes::new(alloc, strokes)?))
}
