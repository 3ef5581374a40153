//! The plan of what has to run again: all that needs a tagged operation, each behind what it needs.
ghost use Rattle.std.specs.Prelude.{◌≡◌, ℕ, ◌<◌, ◌++◌, [], ◌∷◌, length, nat_eq, IfOk, OnOk, if◌then◌else◌};
ghost use Rattle.std.specs.List.{All, list_any, position};
ghost use Rattle.std.specs.Option.{option_map_or};
ghost use Rattle.rig_links.specs.Links.{kept_reads};
ghost use Rattle.rig_links.specs.Numbers.{same_operation};
ghost use Rattle.rig_flush.specs.Reach.{is_reached};
ghost use Rattle.rig_flush.specs.Search.{with_nodes, IsPlannable};
ghost use Rattle.rig_flush.specs.Tables.{AreTables, numbers_of, reached_numbers, places_in, plan_of};

use crate::order::in_order;
use crate::tags::Tags;
use rig_cut::{NodeSet, Plan};
use rig_io::NoMemory;
use rig_links::{In, LinkTable};
use rig_nodes::NodeTable;
use rig_scene::OpId;
use std::alloc::{AllocError, Global};

/// The plan of the operations that are tagged or need a tagged one, themselves or through others, along links that aren't cut.
/// It takes time by what is reached, and not by the number of operations but for an array of that length ([`flush_into`] takes that).
///
/// # Errors
///
/// [`NoMemory`] where memory is refused.
pub fn flush(
    alloc: Global,
    nodes: &NodeTable,
    links: &LinkTable,
    tags: &Tags,
) -> Result<Plan, NoMemory>
    requires { AreTables nodes.now links.now }
    ensures plan { IfOk result (λ plan. plan ≡ plan_of links.now.ins (reached_numbers nodes.now links.now tags.now)) }
{
    let mut reached = NodeSet::new(alloc, nodes.len())?;
    flush_into(alloc, nodes, links, tags, &mut reached)
}

/// The same with a set of nodes that the caller keeps, so that the time is that of what is reached alone. Afterwards the members of
/// `reached` are the operations of the plan, in its order.
///
/// # Errors
///
/// [`NoMemory`] where memory is refused: `reached` has any members.
pub fn flush_into(
    alloc: Global,
    nodes: &NodeTable,
    links: &LinkTable,
    tags: &Tags,
    reached: &mut NodeSet,
) -> Result<Plan, NoMemory>
    requires tables { AreTables nodes.now links.now }
    requires room { reached.old.count ≡ length nodes.now }
    ensures plan { IfOk result (λ plan. plan ≡ plan_of links.now.ins (reached_numbers nodes.now links.now tags.now)) }
    ensures count { reached.new.count ≡ reached.old.count }
    ensures members { OnOk result (reached.new.members ≡ reached_numbers nodes.now links.now tags.now) }
{
    add_tagged(reached, nodes, tags);
    add_readers(reached, links);
    let order = in_order(alloc, reached, links)?;
    reached.clear();
    add_all(reached, &order);
    planned(alloc, links, &order, reached)
}

// The numbers of the tags, in the place of what the set had.
fn add_tagged(set: &mut NodeSet, nodes: &NodeTable, tags: &Tags)
    requires { set.old.count ≡ length nodes.now }
    ensures count { set.new.count ≡ set.old.count }
    ensures members { set.new.members ≡ with_nodes [] (numbers_of nodes.now tags.now) }
{
    set.clear();
    for index in 0..tags.len() {
        add_if_there(set, nodes, tags.get(index));
    }
}

fn add_if_there(set: &mut NodeSet, nodes: &NodeTable, op: &OpId)
    requires { set.old.count ≡ length nodes.now }
    ensures count { set.new.count ≡ set.old.count }
    ensures members { set.new.members ≡ with_nodes set.old.members (option_map_or (λ n. n ∷ []) (position (same_operation op.now) nodes.now) []) }
{
    if let Some(node) = nodes.number(op) {
        set.add(node);
    }
}

// The readers of members, the readers of those, and so on.
fn add_readers(set: &mut NodeSet, links: &LinkTable)
    requires { set.old.count ≡ length links.now.ins }
    ensures count { set.new.count ≡ set.old.count }
    ensures members { (n : ℕ) → list_any (nat_eq n) set.new.members ≡ is_reached nat_eq (kept_reads links.now.ins) set.old.members n }
{
    let mut next = 0;
    while next < set.len() {
        add_all(set, links.readers(set.get(next)));
        next += 1;
    }
}

fn add_all(set: &mut NodeSet, nodes: &[u32])
    requires { All (λ n. n < set.old.count) nodes.now }
    ensures count { set.new.count ≡ set.old.count }
    ensures members { set.new.members ≡ with_nodes set.old.members nodes.now }
{
    for node in nodes {
        set.add(*node);
    }
}

// The plan of numbers in their order.
fn planned(
    alloc: Global,
    links: &LinkTable,
    order: &[u32],
    positions: &NodeSet,
) -> Result<Plan, NoMemory>
    requires order { positions.now.members ≡ order.now }
    requires nodes { positions.now.count ≡ length links.now.ins }
    requires plannable { IsPlannable links.now.ins order.now }
    ensures { IfOk result (λ plan. plan ≡ plan_of links.now.ins order.now) }
{
    let mut plan = Plan::new(alloc);
    let mut ins = Vec::new(alloc);
    for node in order {
        ins.clear();
        push_places(&mut ins, positions, links.ins(*node))?;
        plan.push(*node, &ins)?;
    }
    Ok(plan)
}

fn push_places(list: &mut Vec<u32>, positions: &NodeSet, row: &[In]) -> Result<(), AllocError>
    requires { All (λ l. l.source < positions.now.count) row.now }
    ensures { OnOk result (list.new.items ≡ list.old.items ++ places_in positions.now.members row.now) }
{
    for link in row {
        push_place(list, positions, *link)?;
    }
    Ok(())
}

fn push_place(list: &mut Vec<u32>, positions: &NodeSet, link: In) -> Result<(), AllocError>
    requires { link.source < positions.now.count }
    ensures { OnOk result (list.new.items ≡ list.old.items ++
        (if link.cut then [] else option_map_or (λ i. i ∷ []) (position (nat_eq link.source) positions.now.members) [])) }
{
    if !link.cut {
        push_some(list, positions.position(link.source))?;
    }
    Ok(())
}

fn push_some(list: &mut Vec<u32>, position: Option<u32>) -> Result<(), AllocError>
    ensures { OnOk result (list.new.items ≡ list.old.items ++ option_map_or (λ i. i ∷ []) position []) }
{
    if let Some(position) = position {
        list.push(position)?;
    }
    Ok(())
}
