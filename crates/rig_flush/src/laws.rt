//! What a plan by number means for a scene, and what an edit keeps of its tables.
ghost use Rattle.std.specs.Prelude.{◌≡◌, List as ListOf, map, filter, IsTrue};
ghost use Rattle.rig_edits.specs.declared.edit.Edit.{Edit};
ghost use Rattle.rig_edits.specs.Edited.{edited};
ghost use Rattle.rig_kernel.specs.declared.tables.SceneTables.{SceneTables};
ghost use Rattle.rig_kernel.specs.Tables.{table_parts, AreTables as AreSceneTables};
ghost use Rattle.rig_laws.specs.Kept.{kept_links};
ghost use Rattle.rig_links.specs.Links.{Links};
ghost use Rattle.rig_links.specs.Numbers.{same_operation};
ghost use Rattle.rig_scene.specs.declared.operation.OpId.{OpId};
ghost use Rattle.rig_scene.specs.Cut.{cuts};
ghost use Rattle.rig_scene.specs.Scene.{SceneRecord};
ghost use Rattle.rig_scene.specs.WellFormed.{is_scene};
ghost use Rattle.rig_flush.specs.Reach.{is_reached};
ghost use Rattle.rig_touch.specs.KeepsLinks.{keeps_links};
ghost use Rattle.rig_flush.specs.Shown.{shown_operations};
ghost use Rattle.rig_flush.specs.Tables.{AreTablesOf, reached_numbers, plan_of, operations_at};

/// The operations of a plan are those that are tagged or need a tagged one, in the order of evaluation.
pub fn planned_operations_are_those_reached()
    ensures { (s : SceneRecord) → IsTrue (is_scene s) → (ops : ListOf OpId) → (links : Links) → AreTablesOf s ops links → (tags : ListOf OpId) →
        operations_at ops (map (λ n. n.op) (plan_of links.ins (reached_numbers ops links tags))) ≡
        filter (is_reached same_operation (kept_links s) tags) (operations_at ops links.order) }
{}

/// An edit that keeps all links keeps the operations and in-links by number, what evaluation looks up by table, the operations that
/// frames show, and the cut reads.
pub fn an_edit_may_keep_all_tables()
    ensures tables { (s : SceneRecord) → IsTrue (is_scene s) → (edit : Edit) → IsTrue (keeps_links s edit) →
        (ops : ListOf OpId) (links : Links) → AreTablesOf s ops links → AreTablesOf (edited s edit) ops links }
    ensures looked_up { (s : SceneRecord) → IsTrue (is_scene s) → (edit : Edit) → IsTrue (keeps_links s edit) → (tables : SceneTables) →
        AreSceneTables tables (table_parts s) → AreSceneTables tables (table_parts (edited s edit)) }
    ensures shown { (s : SceneRecord) → IsTrue (is_scene s) → (edit : Edit) → IsTrue (keeps_links s edit) →
        shown_operations (edited s edit) ≡ shown_operations s }
    ensures cuts { (s : SceneRecord) → IsTrue (is_scene s) → (edit : Edit) → IsTrue (keeps_links s edit) → cuts (edited s edit) ≡ cuts s }
{}
