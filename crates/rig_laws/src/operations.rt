//! What holds of the operations of a scene: which there are, and that each needs others of them.
ghost use Rattle.std.specs.Prelude.{◌↔◌, ◌<◌, length, IsTrue, Contains};
ghost use Rattle.std.specs.List.{flat_map};
ghost use Rattle.rig_cycles.specs.Walk.{IsAcyclic};
ghost use Rattle.rig_scene.specs.declared.operation.OpId.{OpId};
ghost use Rattle.rig_scene.specs.Operations.{InLink, operations, ins};
ghost use Rattle.rig_scene.specs.Scene.{SceneRecord};
ghost use Rattle.rig_scene.specs.WellFormed.{is_scene};
ghost use Rattle.rig_laws.specs.Kept.{kept_links};
ghost use Rattle.rig_laws.specs.Members.{has_operation, IsInLinkOf};

/// An operation is one of a scene exactly where the scene has what the operation names.
pub fn operations_are_what_a_scene_has()
    ensures { (s : SceneRecord) → IsTrue (is_scene s) → (op : OpId) → Contains (operations s) op ↔ IsTrue (has_operation s op) }
{}

/// What an operation of a scene needs is an operation of the scene.
pub fn operations_need_operations()
    ensures { (s : SceneRecord) → IsTrue (is_scene s) → (op : OpId) (link : InLink) → IsInLinkOf s op link →
        Contains (operations s) link.op }
{}

/// In-links that aren't cut make no cycle, so that the operations can run in an order in which each comes after what it
/// needs.
pub fn kept_in_links_make_no_cycle()
    ensures { (s : SceneRecord) → IsTrue (is_scene s) → IsAcyclic (kept_links s) }
{}

/// The number of in-links takes 18 bits: each operation has a few, each bone three, and each driver nine.
pub fn in_links_are_few()
    ensures { (s : SceneRecord) → IsTrue (is_scene s) → length (flat_map (ins s) (operations s)) < 262144 }
{}
