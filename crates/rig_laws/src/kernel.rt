//! What holds of the values of operations: each follows from the outputs that the operation takes at its in-links, and only the
//! time looks at the frame. Each law is also a lemma in `specs/`, which proofs of the crates above cite.
ghost use Rattle.std.specs.Prelude.{◌≡◌, ◌≢◌, ℤ, List, Some, IsTrue, Contains, map};
ghost use Rattle.rig_scene.specs.declared.modifier.Mode.{Mode};
ghost use Rattle.rig_scene.specs.declared.operation.OpId.{OpId};
ghost use Rattle.rig_scene.specs.declared.operation.OpId.TheVariants.{Time};
ghost use Rattle.rig_scene.specs.declared.quantity.Quantity.{Quantity};
ghost use Rattle.rig_scene.specs.Operations.{operations, ins};
ghost use Rattle.rig_scene.specs.Scene.{SceneRecord};
ghost use Rattle.rig_scene.specs.StandsFor.{quantity_of};
ghost use Rattle.rig_scene.specs.Value.{Value, val};
ghost use Rattle.rig_scene.specs.WellFormed.{is_scene};
ghost use Rattle.rig_laws.specs.Kernel.{kernel};
ghost use Rattle.rig_laws.specs.OperationValue.{operation_value};
ghost use Rattle.rig_laws.specs.Output.{Output, output_at};

/// The value of an operation of a scene is the kernel over what the operation takes at its in-links, in their order, where each
/// operation has its value and a cut link gives a rest value.
pub fn values_follow_from_in_links()
    ensures { (s : SceneRecord) → IsTrue (is_scene s) → (mode : Mode) (frame : ℤ) (op : OpId) → Contains (operations s) op →
        kernel s mode frame op (map (output_at (operation_value s mode frame)) (ins s op)) ≡ Some (operation_value s mode frame op) }
{}

/// What the kernel gives over those inputs is the value of the operation, whoever took them.
pub fn values_are_those_of_the_inputs()
    ensures { (s : SceneRecord) → IsTrue (is_scene s) → (mode : Mode) (frame : ℤ) (op : OpId) (inputs : List Output) (value : Value) →
        Contains (operations s) op → inputs ≡ map (output_at (operation_value s mode frame)) (ins s op) →
        kernel s mode frame op inputs ≡ Some value → value ≡ operation_value s mode frame op }
{}

/// An operation other than the time gives the same at all frames over the same inputs.
pub fn an_operation_looks_at_no_frame()
    ensures { (s : SceneRecord) (mode : Mode) (op : OpId) (inputs : List Output) (f g : ℤ) → op ≢ Time →
        kernel s mode f op inputs ≡ kernel s mode g op inputs }
{}

/// An operation that stands for a quantity has the value of that quantity.
pub fn values_of_operations()
    ensures { (s : SceneRecord) (mode : Mode) (frame : ℤ) (op : OpId) (q : Quantity) → quantity_of op ≡ Some q →
        operation_value s mode frame op ≡ val s mode frame q }
{}
