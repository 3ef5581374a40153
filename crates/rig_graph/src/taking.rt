//! An edit that a graph takes.
ghost use Rattle.std.specs.Prelude.{◌≡◌, ◌<◌, false, take, length, None, IfOk, OnOk, OnErr, IsTrue};
ghost use Rattle.rig_copies.specs.Copies.{renumbered};
ghost use Rattle.rig_edits.specs.Conditions.{first_cause};
ghost use Rattle.rig_edits.specs.Edited.{edited};
ghost use Rattle.rig_edits.specs.declared.change.TheConstants.{MAX_NEXT};
ghost use Rattle.rig_scene.specs.WellFormed.{is_scene};
ghost use Rattle.rig_touch.specs.KeepsLinks.{keeps_links};
ghost use Rattle.rig_touch.specs.Touch.{touch};
ghost use Rattle.rig_flush.specs.Retag.{is_one_of, retagged};
ghost use Rattle.rig_graph.specs.Parts.{IsCopy};
ghost use Rattle.rig_graph.specs.Taking.{with_tag, with_tags};

use crate::last_plan::LastPlan;
use crate::scene_copy::{SceneCopy, scene_copy};
use rig_copies::Copies;
use rig_edits::{Edit, apply};
use rig_flush::{Tags, retag};
use rig_io::{List, NoMemory};
use rig_nodes::NodeTable;
use rig_scene::{OpId, Scene};
use rig_touch::touch;
use std::alloc::Global;

/// Makes an accepted edit that keeps all links, in place, and tags what it touches.
///
/// # Errors
///
/// [`NoMemory`] where memory is refused: nothing is changed.
pub(crate) fn change_in_place(
    alloc: Global,
    copy: &mut SceneCopy,
    tags: &mut Tags,
    edit: &Edit,
) -> Result<(), NoMemory>
    requires copy { IsCopy copy.old }
    requires next { copy.old.scene.next < MAX_NEXT }
    requires accepted { first_cause copy.old.scene edit.now ≡ None }
    requires keeps { IsTrue (keeps_links copy.old.scene edit.now) }
    ensures copy { OnOk result (copy.new ≡ record copy.old { scene = edited copy.old.scene edit.now }) }
    ensures met { OnOk result (IsTrue (is_scene copy.new.scene)) }
    ensures tags { OnOk result (tags.new ≡ with_tags copy.old.nodes tags.old (touch copy.old.scene edit.now)) }
    ensures same_copy { OnErr result (copy.new ≡ copy.old) }
    ensures same_tags { OnErr result (tags.new ≡ tags.old) }
{
    let count = tags.len();
    let touched = touch(alloc, &copy.scene, edit)?;
    add_tags(tags, &copy.nodes, touched)?;
    let answer = change(alloc, &mut copy.scene, edit);
    if answer.is_err() {
        tags.truncate(count);
    }
    answer
}

// Makes an accepted edit.
fn change(alloc: Global, scene: &mut Scene, edit: &Edit) -> Result<(), NoMemory>
    requires next { scene.old.next < MAX_NEXT }
    requires accepted { first_cause scene.old edit.now ≡ None }
    ensures ok { OnOk result (scene.new ≡ edited scene.old edit.now) }
    ensures met { IsTrue (is_scene scene.new) }
    ensures err { OnErr result (scene.new ≡ scene.old) }
{
    let answer = apply(alloc, scene, edit);
    let _next = scene.next;
    match answer {
        Ok(()) => Ok(()),
        Err(_) => Err(NoMemory),
    }
}

// Tags those of some operations that there are.
fn add_tags(tags: &mut Tags, nodes: &NodeTable, ops: List<OpId>) -> Result<(), NoMemory>
    ensures ok { OnOk result (tags.new ≡ with_tags nodes.now tags.old ops) }
    ensures err { OnErr result (tags.new ≡ tags.old) }
{
    let count = tags.len();
    let answer = add_each(tags, nodes, ops);
    if answer.is_err() {
        tags.truncate(count);
    }
    answer
}

fn add_each(tags: &mut Tags, nodes: &NodeTable, ops: List<OpId>) -> Result<(), NoMemory>
    ensures ok { OnOk result (tags.new ≡ with_tags nodes.now tags.old ops) }
    ensures err { OnErr result (take (length tags.old) tags.new ≡ tags.old) }
{
    for op in ops.into_vec() {
        add_tag(tags, nodes, op)?;
    }
    Ok(())
}

fn add_tag(tags: &mut Tags, nodes: &NodeTable, op: OpId) -> Result<(), NoMemory>
    ensures ok { OnOk result (tags.new ≡ with_tag nodes.now tags.old op) }
    ensures err { OnErr result (tags.new ≡ tags.old) }
{
    if !is_there(nodes, &op) {
        return Ok(());
    }
    tags.add(op)
}

fn is_there(nodes: &NodeTable, op: &OpId) -> bool
    ensures { result ≡ is_one_of nodes.now op.now }
{
    match nodes.number(op) {
        Some(_) => true,
        None => false,
    }
}

/// What a graph has after an edit that may change links.
#[derive(Drop)]
pub(crate) struct Rebuilt {
    pub(crate) copy: SceneCopy,
    pub(crate) tags: Tags,
    pub(crate) last: LastPlan,
}

/// The copy of a scene after an accepted edit with tables of its own, and what is tagged then. What is kept gets the numbers of the new
/// tables.
///
/// # Errors
///
/// [`NoMemory`] where memory is refused: nothing is changed.
pub(crate) fn rebuild(
    alloc: Global,
    copy: &SceneCopy,
    tags: &Tags,
    copies: &mut Copies,
    edit: &Edit,
) -> Result<Rebuilt, NoMemory>
    requires copy { IsCopy copy.now }
    requires next { copy.now.scene.next < MAX_NEXT }
    requires accepted { first_cause copy.now.scene edit.now ≡ None }
    ensures scene { IfOk result (λ r. r.copy.scene ≡ edited copy.now.scene edit.now) }
    ensures copy { IfOk result (λ r. IsCopy r.copy) }
    ensures tags { IfOk result (λ r. r.tags ≡ retagged copy.now.scene r.copy.scene tags.now (touch copy.now.scene edit.now)) }
    ensures count { IfOk result (λ r. r.last.reached.count ≡ length r.copy.nodes) }
    ensures unmade { IfOk result (λ r. r.last.is_made ≡ false) }
    ensures kept { IfOk result (λ r. copies.new.kept ≡ renumbered copy.now.nodes r.copy.nodes copies.old.kept) }
    ensures err { OnErr result (copies.new ≡ copies.old) }
{
    let new = changed_copy(alloc, &copy.scene, edit)?;
    let tags = retagged(alloc, copy, &new, tags, edit)?;
    let last = LastPlan::new(alloc, new.nodes.len())?;
    copies.rebind(&copy.nodes, &new.nodes)?;
    Ok(Rebuilt {
        copy: new,
        tags,
        last,
    })
}

// A scene after an accepted edit, with its tables.
fn changed_copy(alloc: Global, scene: &Scene, edit: &Edit) -> Result<SceneCopy, NoMemory>
    requires next { scene.now.next < MAX_NEXT }
    requires accepted { first_cause scene.now edit.now ≡ None }
    ensures scene { IfOk result (λ copy. copy.scene ≡ edited scene.now edit.now) }
    ensures copy { IfOk result (λ copy. IsCopy copy) }
{
    let mut new = scene.copy()?;
    change(alloc, &mut new, edit)?;
    scene_copy(alloc, new)
}

fn retagged(
    alloc: Global,
    old: &SceneCopy,
    new: &SceneCopy,
    tags: &Tags,
    edit: &Edit,
) -> Result<Tags, NoMemory>
    requires old { IsCopy old.now }
    requires new { IsCopy new.now }
    ensures { IfOk result (λ result. result ≡ retagged old.now.scene new.now.scene tags.now (touch old.now.scene edit.now)) }
{
    let touched = touch(alloc, &old.scene, edit)?;
    retag(
        alloc, &old.nodes, &old.links, &new.nodes, &new.links, tags, &touched,
    )
}
