//! The plan of the last evaluation. The next one takes it where the same is tagged and the tables are the same, as while a rig plays.
ghost use Rattle.std.specs.Prelude.{◌≡◌, ◌++◌, [], ◌∷◌, false, length, IfOk, OnOk, IsTrue};
ghost use Rattle.std.specs.List.{position};
ghost use Rattle.std.specs.Option.{option_map_or};
ghost use Rattle.rig_flush.specs.Tables.{numbers_of};
ghost use Rattle.rig_links.specs.Numbers.{same_operation};
ghost use Rattle.rig_graph.specs.LastPlan.{IsPlanOf, IsLast};
ghost use Rattle.rig_graph.specs.Parts.{IsCopy};

use crate::scene_copy::SceneCopy;
use rig_cut::{NodeSet, Plan};
use rig_flush::{Tags, flush_into};
use rig_io::NoMemory;
use rig_nodes::NodeTable;
use rig_scene::OpId;
use std::alloc::Global;

/// A plan, and the numbers of what was tagged when it was made.
#[derive(Drop)]
pub(crate) struct LastPlan {
    pub(crate) tagged: Vec<u32>,
    pub(crate) plan: Plan,
    // The operations of the plan in its order.
    pub(crate) reached: NodeSet,
    // Whether the plan is that of `tagged`.
    pub(crate) is_made: bool,
}

impl LastPlan {
    /// No plan yet, for so many operations.
    pub(crate) fn new(alloc: Global, count: u32) -> Result<LastPlan, NoMemory>
        ensures count { IfOk result (λ last. last.reached.count ≡ count) }
        ensures unmade { IfOk result (λ last. last.is_made ≡ false) }
    {
        Ok(LastPlan {
            tagged: Vec::new(alloc),
            plan: Plan::new(alloc),
            reached: NodeSet::new(alloc, count)?,
            is_made: false,
        })
    }

    /// Makes it the plan of what is tagged, unless it is.
    ///
    /// # Errors
    ///
    /// [`NoMemory`] where memory is refused: there may be no plan.
    pub(crate) fn make(
        &mut self,
        alloc: Global,
        copy: &SceneCopy,
        tags: &Tags,
    ) -> Result<(), NoMemory>
        requires copy { IsCopy copy.now }
        requires count { self.old.reached.count ≡ length copy.now.nodes }
        requires last { IsLast copy.now.links self.old }
        ensures plan { OnOk result (IsPlanOf copy.now.links (numbers_of copy.now.nodes tags.now) self.new) }
        ensures last { IsLast copy.now.links self.new }
        ensures count { self.new.reached.count ≡ self.old.reached.count }
    {
        let tagged = numbers_of(alloc, &copy.nodes, tags)?;
        if self.is_made && self.tagged == tagged {
            return Ok(());
        }
        self.is_made = false;
        self.plan = flush_into(alloc, &copy.nodes, &copy.links, tags, &mut self.reached)?;
        self.tagged = tagged;
        self.is_made = true;
        Ok(())
    }
}

// The numbers of what is tagged.
fn numbers_of(alloc: Global, nodes: &NodeTable, tags: &Tags) -> Result<Vec<u32>, NoMemory>
    ensures { IfOk result (λ numbers. numbers.items ≡ numbers_of nodes.now tags.now) }
{
    let mut numbers = Vec::with_capacity(alloc, tags.len())?;
    for index in 0..tags.len() {
        push_number(&mut numbers, nodes, tags.get(index))?;
    }
    Ok(numbers)
}

fn push_number(numbers: &mut Vec<u32>, nodes: &NodeTable, op: &OpId) -> Result<(), NoMemory>
    ensures { OnOk result (numbers.new.items ≡ numbers.old.items ++
        option_map_or (λ n. n ∷ []) (position (same_operation op.now) nodes.now) []) }
{
    if let Some(n) = nodes.number(op) {
        numbers.push(n)?;
    }
    Ok(())
}
