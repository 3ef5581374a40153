//! What numbers mean for what is kept of each operation.
ghost use Rattle.std.specs.Prelude.{◌≡◌, ℕ, ◌<◌, List as ListOf, length, map, slice_get, Contains, Option, Some, None};
ghost use Rattle.rig_cut.specs.Plan.{PlanNode};
ghost use Rattle.rig_laws.specs.Output.{Output};
ghost use Rattle.rig_scene.specs.declared.operation.OpId.{OpId};
ghost use Rattle.rig_scene.specs.Pairs.{NoneTwice};
ghost use Rattle.rig_copies.specs.Copies.{kept_for, put_each, renumbered};

/// In a table of distinct operations an output that is put at a number is kept of that number's operation, where the numbers of the
/// plan are distinct. What is kept of an operation that no node is of is as before.
pub fn an_output_is_kept_of_its_operation()
    ensures planned { (ops : ListOf OpId) (kept : ListOf (Option Output)) (plan : ListOf PlanNode) (outs : ListOf Output) → NoneTwice ops →
        NoneTwice (map (λ node. node.op) plan) → (i : ℕ) (node : PlanNode) (op : OpId) (out : Output) → slice_get plan i ≡ Some node →
        slice_get outs i ≡ Some out → slice_get ops node.op ≡ Some op → node.op < length kept →
        kept_for ops (put_each kept plan outs) op ≡ Some out }
    ensures others { (ops : ListOf OpId) (kept : ListOf (Option Output)) (plan : ListOf PlanNode) (outs : ListOf Output) (op : OpId) →
        ((i : ℕ) (node : PlanNode) → slice_get plan i ≡ Some node → slice_get ops node.op ≡ Some op → ⊥) →
        kept_for ops (put_each kept plan outs) op ≡ kept_for ops kept op }
{}

/// After operations were numbered anew, what is kept of each operation of the new table is what was kept of it before, and nothing where
/// the old table hadn't it. Nothing is kept of an operation that the new table hasn't.
pub fn moved_outputs_are_kept_of_the_same_operations()
    ensures moved { (old new : ListOf OpId) (kept : ListOf (Option Output)) → NoneTwice new → (op : OpId) → Contains new op →
        kept_for new (renumbered old new kept) op ≡ kept_for old kept op }
    ensures arrived { (old new : ListOf OpId) (kept : ListOf (Option Output)) → NoneTwice new → (op : OpId) → Contains new op →
        (Contains old op → ⊥) → kept_for new (renumbered old new kept) op ≡ None }
    ensures gone { (old new : ListOf OpId) (kept : ListOf (Option Output)) (op : OpId) → (Contains new op → ⊥) →
        kept_for new (renumbered old new kept) op ≡ None }
{}
