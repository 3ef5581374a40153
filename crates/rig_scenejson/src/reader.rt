//! Reading lists whose items refer to records by name.
#![tactic(auto, using(crate::proofs::First::first_append))]

ghost use Rattle.std.specs.Prelude.{◌≡◌, ◌<◌, ℕ, List, OnOk};
ghost use Rattle.serde_json.specs.Data.{Data};
ghost use Rattle.serde_json.specs.View.{view, items_view};
ghost use Rattle.rig_scenejson.specs.declared.fault.Fault.{Fault as FaultRecord};
ghost use Rattle.rig_scenejson.specs.Tests.{Reads, first, in_item};
ghost use Rattle.rig_scenejson.specs.Value.{item_count};
ghost use Rattle.rig_scenejson.specs.Given.{items_at, values_from};
ghost use Rattle.rig_scenejson.specs.PassTwo.{each_from, each_faults};

use crate::fault::{Hop, SceneStop};
use crate::given::items_of;
use crate::member::Member;
use crate::test::{item_hop, within};
use crate::value::field;
use rig_io::List;
use serde_json::Value;
use std::alloc::Global;

/// Reads an item of a list by its index, with what stood before it, and tests what it refers to.
pub trait Reader {
    type Item: Drop;

    /// What is kept of the items before.
    type Before: Drop;

    /// Whether there may be an item of an index.
    ghost can_read: { Self → ℕ → Type 0 } = { λ _ _. Unit {0} };

    /// What a value gives.
    ghost gives: { Self → ℕ → Data → Self.Item };

    /// The faults of a value, in the order of its tests.
    ghost faults: { Self → ℕ → Self.Before → Data → List FaultRecord };

    /// What is before the next value.
    ghost next: { Self → Self.Before → Data → Self.Before };

    fn read(
        &self,
        alloc: Global,
        index: usize,
        before: &mut Self::Before,
        value: &Value,
    ) -> Result<Self::Item, SceneStop>
        requires { can_read self.now index }
        ensures read { Reads result (gives self.now index (view value.now)) (first (faults self.now index before.old (view value.now))) }
        ensures next { OnOk result (before.new ≡ next self.now before.old (view value.now)) };
}

/// Reads the items of a member, none where it is absent.
#[tactic(auto, using(crate::proofs::Moved::reads_moved))]
pub(crate) fn read_list<R: Reader>(
    alloc: Global,
    value: &Value,
    member: Member,
    reader: &R,
    before: &mut R::Before,
) -> Result<List<R::Item>, SceneStop>
    requires { (index : ℕ) → index < item_count (items_at member (view value.now)) → R.can_read reader.now index }
    ensures { Reads result (values_from (R.gives reader.now) 0 (items_at member (view value.now)))
        (first (each_faults member (R.faults reader.now) (R.next reader.now) before.old (view value.now))) }
{
    match field(value, member) {
        Some(found) => within(
            alloc,
            Hop::Member(member),
            read_items(alloc, reader, before, items_of(found)),
        ),
        None => Ok(List::new(alloc)),
    }
}

/// Reads items one after the other.
#[tactic(auto, using(crate::proofs::EachFrom::values_step, crate::proofs::EachFrom::found_step, crate::proofs::Counts::item_count_of_view))]
pub fn read_items<R: Reader>(
    alloc: Global,
    reader: &R,
    before: &mut R::Before,
    items: &[Value],
) -> Result<List<R::Item>, SceneStop>
    requires { (index : ℕ) → index < item_count (items_view items.now) → R.can_read reader.now index }
    ensures { Reads result (values_from (R.gives reader.now) 0 (items_view items.now))
        (first (each_from (R.faults reader.now) (R.next reader.now) 0 before.old (items_view items.now))) }
{
    let mut list = Vec::new(alloc);
    for (index, item) in items.iter().enumerate() {
        list.push(read_item(alloc, reader, index, before, item)?)?;
    }
    Ok(List::from(list))
}

// Reads the item of an index. A fault in it has its place in the list.
#[tactic(auto, using(crate::proofs::Moved::reads_moved))]
fn read_item<R: Reader>(
    alloc: Global,
    reader: &R,
    index: usize,
    before: &mut R::Before,
    value: &Value,
) -> Result<R::Item, SceneStop>
    requires { R.can_read reader.now index }
    ensures read { Reads result (R.gives reader.now index (view value.now))
        (first (in_item index (R.faults reader.now index before.old (view value.now)))) }
    ensures next { OnOk result (before.new ≡ R.next reader.now before.old (view value.now)) }
{
    let read = reader.read(alloc, index, before, value);
    within(alloc, item_hop(index), read)
}
