//! Which operation stands for which quantity, and in which order.
ghost use Rattle.std.specs.Prelude.{◌≡◌, ◌↔◌, Some};
ghost use Rattle.std.specs.List.{filter_map};
ghost use Rattle.rig_scene.specs.declared.operation.OpId.{OpId};
ghost use Rattle.rig_scene.specs.declared.quantity.Quantity.{Quantity};
ghost use Rattle.rig_scene.specs.Scene.{SceneRecord};
ghost use Rattle.rig_scene.specs.Quantities.{quantities};
ghost use Rattle.rig_scene.specs.Operations.{operations, operation_of};
ghost use Rattle.rig_scene.specs.StandsFor.{quantity_of};

/// Each quantity has one operation that stands for it, and an operation stands for at most one quantity. Those that
/// stand for one, in the order of the operations, are the quantities in their order.
pub fn operations_stand_for_quantities()
    ensures back { (q : Quantity) → quantity_of (operation_of q) ≡ Some q }
    ensures exactly { (op : OpId) → (q : Quantity) → quantity_of op ≡ Some q ↔ op ≡ operation_of q }
    ensures one_each { (q r : Quantity) → operation_of q ≡ operation_of r → q ≡ r }
    ensures in_order { (s : SceneRecord) → filter_map quantity_of (operations s) ≡ quantities s }
{}
