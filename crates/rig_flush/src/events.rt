//! What holds of one dependency graph, event after event, as laws of the definitions. An evaluation may run its operations in any order
//! that the events allow; the order of a plan is one.
ghost use Rattle.std.specs.Prelude.{◌≡◌, List as ListOf, filter, Some, None, IsTrue, Contains, length, ℕ, ℤ};
ghost use Rattle.rig_edits.specs.declared.edit.Edit.{Edit};
ghost use Rattle.rig_edits.specs.Conditions.{first_cause, IsEdit};
ghost use Rattle.rig_laws.specs.OperationValue.{operation_value};
ghost use Rattle.rig_links.specs.Links.{Links};
ghost use Rattle.rig_pending.specs.declared.mark.Mark.{Mark};
ghost use Rattle.rig_pending.specs.Ordered.{IsOrdered};
ghost use Rattle.rig_scene.specs.declared.modifier.Mode.{Mode};
ghost use Rattle.rig_scene.specs.declared.operation.OpId.{OpId};
ghost use Rattle.rig_scene.specs.Operations.{operations};
ghost use Rattle.rig_scene.specs.Scene.{SceneRecord};
ghost use Rattle.rig_scene.specs.WellFormed.{is_scene};
ghost use Rattle.rig_flush.specs.Graph.{GraphState, Published, Fresh, IsRight, opened, taken, begun, CanStart, started, CanFinish, finished, CanPublish, published_now, tagged_at, flushed_at, frame_of};
ghost use Rattle.rig_flush.specs.Evaluation.{IsEvaluation, Needs, marks_of, evaluated};
ghost use Rattle.rig_flush.specs.Reach.{reach};
ghost use Rattle.rig_flush.specs.Retag.{is_one_of};
ghost use Rattle.rig_flush.specs.Tables.{AreTablesOf, reached_numbers};

/// A graph that opens keeps nothing, and all operations are tagged.
pub fn an_opened_graph_is_fresh()
    ensures { (scene : SceneRecord) (mode : Mode) → Fresh (opened scene mode) }
{}

/// An accepted edit that is taken leaves what is kept right, as far as nothing is tagged that leads to it.
pub fn a_taken_edit_keeps_it_fresh()
    ensures { (g : GraphState) → IsTrue (is_scene g.copy) → Fresh g → (edit : Edit) → IsEdit edit → first_cause g.copy edit ≡ None →
        (turn : ℕ) → Fresh (taken g edit turn) }
{}

/// Where an evaluation begins, what it doesn't run has its value from scratch, at the frame that it is of.
pub fn what_needs_no_run_is_right()
    ensures { (g : GraphState) → IsTrue (is_scene g.copy) → Fresh g → (frame : ℤ) → IsRight (begun g frame) }
{}

/// An operation that starts changes no value.
pub fn a_start_leaves_it_right()
    ensures { (g : GraphState) → IsTrue (is_scene g.copy) → IsRight g → (op : OpId) → CanStart g op → IsRight (started g op) }
{}

/// An operation that finishes has its value from scratch, since all that it needs has.
pub fn a_finish_leaves_it_right()
    ensures { (g : GraphState) → IsTrue (is_scene g.copy) → IsRight g → (op : OpId) → CanFinish g op → IsRight (finished g op) }
{}

/// A frame that may be published is the scene of the copy from scratch, and what is kept is right.
pub fn a_published_frame_is_the_scene_from_scratch()
    ensures frame { (g : GraphState) → IsTrue (is_scene g.copy) → (right : IsRight g) → CanPublish g →
        (published_now g).published ≡ Some (frame_of g.copy g.mode right.run.frame) }
    ensures fresh { (g : GraphState) → IsTrue (is_scene g.copy) → IsRight g → CanPublish g → Fresh (published_now g) }
{}

/// An evaluation, in whichever order its operations run, publishes the scene from scratch, and changes neither the copy nor the version.
pub fn an_evaluation_publishes_the_scene_from_scratch()
    ensures frame { (g after : GraphState) → IsTrue (is_scene g.copy) → Fresh g → (frame : ℤ) (trace : ListOf Mark) → IsEvaluation g frame trace after →
        after.published ≡ Some (frame_of g.copy g.mode frame) }
    ensures fresh { (g after : GraphState) → IsTrue (is_scene g.copy) → Fresh g → (frame : ℤ) (trace : ListOf Mark) → IsEvaluation g frame trace after →
        Fresh after }
    ensures scene { (g after : GraphState) (frame : ℤ) (trace : ListOf Mark) → IsEvaluation g frame trace after →
        (after.copy ≡ g.copy) × (after.version ≡ g.version) × (after.mode ≡ g.mode) }
{}

/// The operations of a plan that run one after the other are an evaluation. It leaves the values from scratch, each operation has run
/// once after all that it needs, and there are as many as are reached from the tags.
pub fn running_in_order_is_an_evaluation()
    ensures course { (g : GraphState) → IsTrue (is_scene g.copy) → Fresh g → g.running ≡ None → (ops : ListOf OpId) (links : Links) →
        AreTablesOf g.copy ops links → (frame : ℤ) →
        IsEvaluation g frame (marks_of (reached_numbers ops links (tagged_at g frame))) (evaluated g frame) }
    ensures ordered { (s : SceneRecord) → IsTrue (is_scene s) → (ops : ListOf OpId) (links : Links) →
        AreTablesOf s ops links → (tags : ListOf OpId) →
        IsOrdered (Needs s) (reached_numbers ops links tags) (marks_of (reached_numbers ops links tags)) }
    ensures count { (g : GraphState) → IsTrue (is_scene g.copy) → (ops : ListOf OpId) (links : Links) →
        AreTablesOf g.copy ops links → (frame : ℤ) →
        length (reached_numbers ops links (tagged_at g frame)) ≡ length (flushed_at g frame) }
{}

/// Tags count by the scene: one that is no operation of it reaches nothing, and in which order the others stand is no matter.
pub fn tags_count_by_the_scene()
    ensures numbers { (s : SceneRecord) (ops : ListOf OpId) (links : Links) → AreTablesOf s ops links → (tags : ListOf OpId) →
        reached_numbers ops links tags ≡ reached_numbers ops links (filter (is_one_of tags) (operations s)) }
    ensures operations { (s : SceneRecord) (ops : ListOf OpId) (links : Links) → AreTablesOf s ops links → (tags : ListOf OpId) →
        reach s tags ≡ reach s (filter (is_one_of tags) (operations s)) }
{}
