//! Which operations are tagged after an edit.
ghost use Rattle.std.specs.Prelude.{◌≡◌, ◌<◌, ◌++◌, ◌||◌, [], ◌∷◌, List as ListOf, length, slice_get, not, Some, IfOk, OnOk, if◌then◌else◌};
ghost use Rattle.std.specs.List.{All, filter_map};
ghost use Rattle.rig_links.specs.Links.{link_named};
ghost use Rattle.rig_scene.specs.Operations.{InLink, operations, ins};
ghost use Rattle.rig_scene.specs.Scene.{SceneRecord};
ghost use Rattle.rig_scene.specs.declared.operation.OpId.{OpId as Operation};
ghost use Rattle.rig_flush.specs.Retag.{is_one_of, same_link, same_links, retagged};
ghost use Rattle.rig_flush.specs.Tables.{AreTablesOf};

use crate::tags::Tags;
use rig_io::{List, NoMemory};
use rig_links::{In, LinkTable};
use rig_nodes::NodeTable;
use rig_scene::OpId;
use std::alloc::Global;

/// The operations that are tagged after an edit: of those of the new scene, in order, the ones that were tagged, that the edit touched,
/// that the old scene hadn't, and those whose in-links are others than before. In-links are compared by operation and by whether they
/// are cut, not by number.
///
/// # Errors
///
/// [`NoMemory`] where memory is refused.
pub fn retag(
    alloc: Global,
    old_nodes: &NodeTable,
    old_links: &LinkTable,
    new_nodes: &NodeTable,
    new_links: &LinkTable,
    tags: &Tags,
    touched: &List<OpId>,
) -> Result<Tags, NoMemory>
    requires old { length old_links.now.ins ≡ length old_nodes.now }
    requires new { length new_links.now.ins ≡ length new_nodes.now }
    ensures { (before after : SceneRecord) → AreTablesOf before old_nodes.now old_links.now → AreTablesOf after new_nodes.now new_links.now →
        IfOk result (λ new. new ≡ retagged before after tags.now touched.now) }
{
    let touched_ops = set_of(alloc, touched.as_slice())?;
    let mut new = Tags::new(alloc);
    let ops = new_nodes.ops();
    for n in 0..new_nodes.len() {
        let op = &ops[n as usize];
        let changed = has_changed(old_nodes, old_links, new_nodes, new_links, n, op);
        add_if(&mut new, is_tagged(tags, &touched_ops, op, changed), op)?;
    }
    Ok(new)
}

fn is_tagged(tags: &Tags, touched: &Tags, op: &OpId, has_changed: bool) -> bool
    ensures { result ≡ (is_one_of tags.now op.now || is_one_of touched.now op.now || has_changed) }
{
    tags.has(op) || touched.has(op) || has_changed
}

// The same operations, each found at once.
fn set_of(alloc: Global, ops: &[OpId]) -> Result<Tags, NoMemory>
    ensures { IfOk result (λ set. (op : Operation) → is_one_of set op ≡ is_one_of ops.now op) }
{
    let mut set = Tags::new(alloc);
    for op in ops {
        set.add(op.copy()?)?;
    }
    Ok(set)
}

fn add_if(tags: &mut Tags, is_tagged: bool, op: &OpId) -> Result<(), NoMemory>
    ensures { OnOk result (tags.new ≡ (if is_tagged then if is_one_of tags.old op.now then tags.old else tags.old ++ op.now ∷ [] else tags.old)) }
{
    if is_tagged {
        tags.add(op.copy()?)?;
    }
    Ok(())
}

// Whether the old scene hadn't an operation of the new one, or had it with other in-links.
fn has_changed(
    old_nodes: &NodeTable,
    old_links: &LinkTable,
    new_nodes: &NodeTable,
    new_links: &LinkTable,
    n: u32,
    op: &OpId,
) -> bool
    requires old { length old_links.now.ins ≡ length old_nodes.now }
    requires new { length new_links.now.ins ≡ length new_nodes.now }
    requires number { slice_get new_nodes.now n ≡ Some op.now }
    ensures { (before after : SceneRecord) → AreTablesOf before old_nodes.now old_links.now → AreTablesOf after new_nodes.now new_links.now →
        result ≡ (not (is_one_of (operations before) op.now) || not (same_links (ins before op.now) (ins after op.now))) }
{
    match old_nodes.number(op) {
        Some(old) => {
            let old_row = old_links.ins(old);
            let new_row = new_links.ins(n);
            !are_same(old_nodes, old_row, new_nodes, new_row)
        }
        None => true,
    }
}

// Whether two rows of in-links are of the same operations, and cut or kept alike.
fn are_same(old_nodes: &NodeTable, old: &[In], new_nodes: &NodeTable, new: &[In]) -> bool
    requires old { All (λ l. l.source < length old_nodes.now) old.now }
    requires new { All (λ l. l.source < length new_nodes.now) new.now }
    ensures { result ≡ same_links (filter_map (link_named old_nodes.now) old.now) (filter_map (link_named new_nodes.now) new.now) }
{
    if old.len() != new.len() {
        return false;
    }
    for index in 0..old.len() {
        if !is_same(old_nodes, old[index], new_nodes, new[index]) {
            return false;
        }
    }
    true
}

fn is_same(old_nodes: &NodeTable, old: In, new_nodes: &NodeTable, new: In) -> bool
    requires old { old.source < length old_nodes.now }
    requires new { new.source < length new_nodes.now }
    ensures { (x y : InLink) → link_named old_nodes.now old ≡ Some x → link_named new_nodes.now new ≡ Some y → result ≡ same_link x y }
{
    old_nodes.op(old.source) == new_nodes.op(new.source) && old.cut == new.cut
}
