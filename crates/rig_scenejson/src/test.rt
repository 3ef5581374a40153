//! Tests of values in the first pass, and how those of members and items make up those of a record.
ghost use Rattle.std.specs.Prelude.{◌≡◌, ◌&&◌, List, OnOk, min, nat_le};
ghost use Rattle.serde_json.specs.Data.{Data};
ghost use Rattle.serde_json.specs.View.{view, items_view};
ghost use Rattle.rig_scenejson.specs.declared.fault.Fault.{Fault as FaultRecord};
ghost use Rattle.rig_scenejson.specs.Tests.{Tests, MovedTo, first, in_item, required, optional, after_field, items_faults, items_after};
ghost use Rattle.rig_scenejson.specs.PassOne.{list_faults, after_list};
ghost use Rattle.rig_scenejson.specs.Value.{record_faults};

use crate::fault::{Cause, Hop, SceneStop, moved, stop_for};
use crate::member::Member;
use crate::value::field;
use serde_json::Value;
use std::alloc::Global;

/// A test of one value, with what stood before it in its list.
pub(crate) trait Test {
    /// What is kept of the values before.
    type Before: Drop;

    /// The faults of a value, in the order of its tests.
    ghost faults: { Self → Self.Before → Data → List FaultRecord };

    /// What is before the next value.
    ghost next: { Self → Self.Before → Data → Self.Before };

    fn test(&self, alloc: Global, before: &mut Self::Before, value: &Value) -> Result<(), SceneStop>
        ensures first { Tests result (first (faults self.now before.old (view value.now))) }
        ensures next { OnOk result (before.new ≡ next self.now before.old (view value.now)) };
}

/// Tests that the value is a JSON object.
pub fn is_record(alloc: Global, value: &Value) -> Result<(), SceneStop>
    ensures { Tests result (first (record_faults (view value.now))) }
{
    match value.as_object() {
        Some(_) => Ok(()),
        None => Err(stop_for(alloc, Cause::WrongKind)),
    }
}

/// Tests a member that has to be there.
pub(crate) fn required<T: Test>(
    alloc: Global,
    value: &Value,
    member: Member,
    test: &T,
    before: &mut T::Before,
) -> Result<(), SceneStop>
    ensures first { Tests result (first (required member (T.faults test.now before.old) (view value.now))) }
    ensures next { OnOk result (before.new ≡ after_field member (T.next test.now) before.old (view value.now)) }
{
    match field(value, member) {
        Some(found) => within(alloc, Hop::Member(member), test.test(alloc, before, found)),
        None => Err(moved(alloc, Hop::Member(member), stop_for(alloc, Cause::Missing))),
    }
}

/// Tests a member that may be absent.
pub(crate) fn optional<T: Test>(
    alloc: Global,
    value: &Value,
    member: Member,
    test: &T,
    before: &mut T::Before,
) -> Result<(), SceneStop>
    ensures first { Tests result (first (optional member (T.faults test.now before.old) (view value.now))) }
    ensures next { OnOk result (before.new ≡ after_field member (T.next test.now) before.old (view value.now)) }
{
    match field(value, member) {
        Some(found) => within(alloc, Hop::Member(member), test.test(alloc, before, found)),
        None => Ok(()),
    }
}

/// What was answered of a value, as that of the value in which it stands at a hop.
pub fn within<T>(alloc: Global, hop: Hop, answer: Result<T, SceneStop>) -> Result<T, SceneStop>
    ensures { MovedTo hop answer result }
{
    match answer {
        Ok(found) => Ok(found),
        Err(stop) => Err(moved(alloc, hop, stop)),
    }
}

/// A list of so many items, each tested with those before it.
#[derive(Clone, Copy, Drop)]
pub(crate) struct ListOf<T> {
    pub(crate) least: usize,
    pub(crate) most: usize,
    pub(crate) each: T,
}

impl<T: Test> Test for ListOf<T> {
    type Before = T::Before;

    ghost faults = { λ list. list_faults list.least list.most (T.faults list.each) (T.next list.each) };

    ghost next = { λ list. after_list (T.next list.each) };

    #[tactic(auto, using(crate::proofs::Counts::item_count_of_view))]
    fn test(
        &self,
        alloc: Global,
        before: &mut Self::Before,
        value: &Value,
    ) -> Result<(), SceneStop> {
        let Some(items) = value.as_array() else {
            return Err(stop_for(alloc, Cause::WrongKind));
        };
        if !is_between(self.least, items.len(), self.most) {
            return Err(stop_for(alloc, Cause::Count));
        }
        test_items(alloc, &self.each, before, items.as_slice())
    }
}

fn is_between(least: usize, count: usize, most: usize) -> bool
    ensures { result ≡ (nat_le least count && nat_le count most) }
{
    least <= count && count <= most
}

/// Tests items one after the other.
#[tactic(auto, using(crate::proofs::First::first_append))]
pub(crate) fn test_items<T: Test>(
    alloc: Global,
    test: &T,
    before: &mut T::Before,
    items: &[Value],
) -> Result<(), SceneStop>
    ensures first { Tests result (first (items_faults (T.faults test.now) (T.next test.now) 0 before.old (items_view items.now))) }
    ensures next { OnOk result (before.new ≡ items_after (T.next test.now) before.old (items_view items.now)) }
{
    for (index, item) in items.iter().enumerate() {
        test_item(alloc, test, before, index, item)?;
    }
    Ok(())
}

fn test_item<T: Test>(
    alloc: Global,
    test: &T,
    before: &mut T::Before,
    index: usize,
    item: &Value,
) -> Result<(), SceneStop>
    ensures first { Tests result (first (in_item index (T.faults test.now before.old (view item.now)))) }
    ensures next { OnOk result (before.new ≡ T.next test.now before.old (view item.now)) }
{
    within(alloc, item_hop(index), test.test(alloc, before, item))
}

/// The greatest index of a place, as also the most items of a list with no limit of its own.
pub(crate) const MAX_INDEX: usize = 4_294_967_295;

/// The hop to an item. What would be beyond 32 bits is told as the greatest number of them.
pub fn item_hop(index: usize) -> Hop
    ensures { result ≡ Hop.Index (min index 4294967295) }
{
    Hop::Index(index.min(MAX_INDEX) as u32)
}
