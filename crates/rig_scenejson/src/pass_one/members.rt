//! Tests of the members that most records have: their name, and a list of further records.
ghost use Rattle.std.specs.Prelude.{◌≡◌, ◌++◌, ◌∷◌, [], OnOk};
ghost use Rattle.serde_json.specs.View.{view};
ghost use Rattle.rig_scenejson.specs.Tests.{Tests, first, required, optional, items_after};
ghost use Rattle.rig_scenejson.specs.Given.{text_at, items_at};
ghost use Rattle.rig_scenejson.specs.PassOne.{new_name_faults, list_faults};

use crate::fault::SceneStop;
use crate::leaves::NewName;
use crate::member::Member;
use crate::test::{ListOf, Test, optional, required};
use rig_names::Names;
use serde_json::Value;
use std::alloc::Global;

/// Tests the member that names a record, and adds its text to the names of the records before it.
pub(crate) fn test_name(
    alloc: Global,
    value: &Value,
    member: Member,
    before: &mut Names,
) -> Result<(), SceneStop>
    ensures first { Tests result (first (required member (new_name_faults before.old) (view value.now))) }
    ensures next { OnOk result (before.new ≡ before.old ++ text_at member (view value.now) ∷ []) }
{
    required(alloc, value, member, &NewName, before)
}

/// Tests a list that may be absent, of so many records at most.
#[tactic(auto, using(crate::proofs::Members::after_optional_list))]
pub(crate) fn test_list<T: Test + Drop>(
    alloc: Global,
    value: &Value,
    member: Member,
    most: usize,
    each: T,
    before: &mut T::Before,
) -> Result<(), SceneStop>
    ensures first { Tests result (first (optional member (list_faults 0 most (T.faults each) (T.next each) before.old) (view value.now))) }
    ensures next { OnOk result (before.new ≡ items_after (T.next each) before.old (items_at member (view value.now))) }
{
    let list = ListOf {
        least: 0,
        most,
        each,
    };
    optional(alloc, value, member, &list, before)
}
