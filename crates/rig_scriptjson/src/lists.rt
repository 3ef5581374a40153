//! Reads the items of a list, of which there may be so many.
ghost use Rattle.std.specs.Prelude.{◌≡◌, ◌≤◌, ◌&&◌, List as ListOf, OnOk, IfOk, length, nat_le};
ghost use Rattle.serde_json.specs.Data.{Data};
ghost use Rattle.serde_json.specs.View.{view, items_view};
ghost use Rattle.rig_scenejson.specs.declared.fault.Fault.{Fault};
ghost use Rattle.rig_scenejson.specs.Given.{values};
ghost use Rattle.rig_scenejson.specs.PassOne.{list_faults, after_list};
ghost use Rattle.rig_scenejson.specs.Tests.{Reads, first, in_item, items_faults, items_after};
ghost use Rattle.rig_scenejson.specs.Value.{items_of};

use rig_io::List;
use rig_scenejson::{Cause, SceneStop, item_hop, stop_for, within};
use serde_json::Value;
use std::alloc::Global;

/// Reads one item of a list, with what stood before it. Its index matters only for the place of a fault.
pub(crate) trait ItemReader {
    type Item: Drop;

    /// What is kept of the items before.
    type Before: Drop;

    /// What a value gives.
    ghost gives: { Data → Self.Item };

    /// The faults of a value, in the order of its tests.
    ghost faults: { Self → Self.Before → Data → ListOf Fault };

    /// What is before the next value.
    ghost next: { Self.Before → Data → Self.Before };

    fn read(
        &self,
        alloc: Global,
        before: &mut Self::Before,
        value: &Value,
    ) -> Result<Self::Item, SceneStop>
        ensures read { Reads result (gives (view value.now)) (first (faults self.now before.old (view value.now))) }
        ensures next { OnOk result (before.new ≡ next before.old (view value.now)) };
}

/// Reads an array of at least and at most so many items, one after the other.
#[tactic(auto, using(crate::proofs::Items::item_count_of_view))]
pub(crate) fn items_in<R: ItemReader>(
    alloc: Global,
    least: usize,
    most: usize,
    reader: &R,
    before: &mut R::Before,
    value: &Value,
) -> Result<List<R::Item>, SceneStop>
    ensures read { Reads result (values R.gives (items_of (view value.now)))
        (first (list_faults least most (R.faults reader.now) R.next before.old (view value.now))) }
    ensures next { OnOk result (before.new ≡ after_list R.next before.old (view value.now)) }
    ensures count { IfOk result (λ items. (least ≤ length items) × (length items ≤ most)) }
{
    let Some(items) = value.as_array() else {
        return Err(stop_for(alloc, Cause::WrongKind));
    };
    if !is_between(least, items.len(), most) {
        return Err(stop_for(alloc, Cause::Count));
    }
    read_items(alloc, reader, before, items.as_slice())
}

fn is_between(least: usize, count: usize, most: usize) -> bool
    ensures { result ≡ (nat_le least count && nat_le count most) }
{
    least <= count && count <= most
}

#[tactic(auto, using(crate::proofs::Items::values_step, crate::proofs::Items::faults_step))]
fn read_items<R: ItemReader>(
    alloc: Global,
    reader: &R,
    before: &mut R::Before,
    items: &[Value],
) -> Result<List<R::Item>, SceneStop>
    ensures read { Reads result (values R.gives (items_view items.now))
        (first (items_faults (R.faults reader.now) R.next 0 before.old (items_view items.now))) }
    ensures next { OnOk result (before.new ≡ items_after R.next before.old (items_view items.now)) }
    ensures count { IfOk result (λ list. length list ≡ length items.now) }
{
    let mut list = Vec::new(alloc);
    for (index, item) in items.iter().enumerate() {
        list.push(read_item(alloc, reader, index, before, item)?)?;
    }
    Ok(List::from(list))
}

// Reads the item of an index. A fault in it has its place in the list.
#[tactic(auto, using(crate::proofs::First::reads_moved))]
fn read_item<R: ItemReader>(
    alloc: Global,
    reader: &R,
    index: usize,
    before: &mut R::Before,
    value: &Value,
) -> Result<R::Item, SceneStop>
    ensures read { Reads result (R.gives (view value.now)) (first (in_item index (R.faults reader.now before.old (view value.now)))) }
    ensures next { OnOk result (before.new ≡ R.next before.old (view value.now)) }
{
    let read = reader.read(alloc, before, value);
    within(alloc, item_hop(index), read)
}
