//! Tests actions: their curves and keys.
#![tactic(auto, using(crate::proofs::First::first_append))]

ghost use Rattle.std.specs.Prelude.{◌≡◌, ◌++◌, ◌∷◌, [], IfOk, OnOk};
ghost use Rattle.serde_json.specs.View.{view};
ghost use Rattle.rig_names.specs.Sets.{Adds};
ghost use Rattle.rig_scene.specs.Path.{same_path};
ghost use Rattle.rig_scenejson.specs.Tests.{Tests, first};
ghost use Rattle.rig_scenejson.specs.Given.{path_given};
ghost use Rattle.rig_scenejson.specs.PassOne.{new_path_faults, key_faults, after_key, curve_faults, after_curve, action_faults};
ghost use Rattle.rig_scenejson.specs.PassOne.{after_action, no_actions};

use crate::before::{ActionsBefore, CurvesBefore};
use crate::fault::{Cause, Hop, SceneStop, moved, stop_for};
use crate::leaves::{NUMBER, RisingFrame, WordOf};
use crate::member::Member;
use crate::pass_one::members::{test_list, test_name};
use crate::pass_one::records::{item_count, path_of};
use crate::test::{Test, is_record, optional, required};
use rig_io::NoMemory;
use rig_names::{Distinct, Names};
use rig_scene::Path;
use rig_scene::limits::{MAX_CURVES, MAX_KEYS};
use serde_json::Value;
use std::alloc::Global;

/// A keyframe, after the frame of the one before it.
#[derive(Clone, Copy, Drop)]
struct KeyTest;

impl Test for KeyTest {
    type Before = Option<i64>;

    ghost faults = { λ _. key_faults };

    ghost next = { λ _. after_key };

    fn test(
        &self,
        alloc: Global,
        before: &mut Option<i64>,
        value: &Value,
    ) -> Result<(), SceneStop> {
        is_record(alloc, value)?;
        required(alloc, value, Member::Frame, &RisingFrame, before)?;
        required(alloc, value, Member::Value, &NUMBER, &mut ())?;
        optional(
            alloc,
            value,
            Member::Interp,
            &WordOf {
                words: &["constant", "linear"],
            },
            &mut (),
        )
    }
}

/// A curve, after those of the action before it.
#[derive(Clone, Copy, Drop)]
struct CurveTest;

impl Test for CurveTest {
    type Before = CurvesBefore;

    ghost faults = { λ _. curve_faults };

    ghost next = { λ _. after_curve };

    fn test(
        &self,
        alloc: Global,
        before: &mut CurvesBefore,
        value: &Value,
    ) -> Result<(), SceneStop> {
        is_record(alloc, value)?;
        test_path(alloc, value, &mut before.paths)?;
        let most = before.keys_left;
        test_list(alloc, value, Member::Keys, most, KeyTest, &mut None)?;
        before.keys_left = before
            .keys_left
            .saturating_sub(item_count(value, Member::Keys));
        Ok(())
    }
}

// Tests the path of a curve, and adds it to those before it.
fn test_path(alloc: Global, value: &Value, before: &mut Distinct<Path>) -> Result<(), SceneStop>
    ensures first { Tests result (first (new_path_faults before.old (view value.now))) }
    ensures next { OnOk result (before.new ≡ before.old ++ path_given (view value.now) ∷ []) }
{
    let path = path_of(alloc, value)?;
    if !add_path(before, path)? {
        let stop = stop_for(alloc, Cause::Duplicate);
        return Err(moved(alloc, Hop::Member(Member::Channel), stop));
    }
    Ok(())
}

// Adds a path, unless it is there, and returns whether it was new.
fn add_path(paths: &mut Distinct<Path>, path: Path) -> Result<bool, NoMemory>
    ensures { IfOk result (Adds same_path path paths.old paths.new) }
{
    paths.add(path)
}

/// An action, after those before it.
#[derive(Clone, Copy, Drop)]
pub(crate) struct ActionTest;

impl Test for ActionTest {
    type Before = ActionsBefore;

    ghost faults = { λ _. action_faults };

    ghost next = { λ _. after_action };

    fn test(
        &self,
        alloc: Global,
        before: &mut ActionsBefore,
        value: &Value,
    ) -> Result<(), SceneStop> {
        is_record(alloc, value)?;
        test_name(alloc, value, Member::Name, &mut before.names)?;
        let most = before.curves_left;
        let mut curves = CurvesBefore {
            paths: Distinct::new(alloc),
            keys_left: before.keys_left,
        };
        test_list(alloc, value, Member::Curves, most, CurveTest, &mut curves)?;
        before.curves_left = most.saturating_sub(item_count(value, Member::Curves));
        before.keys_left = curves.keys_left;
        Ok(())
    }
}

/// Before the first action.
pub(crate) fn no_actions(alloc: Global) -> ActionsBefore
    ensures { result ≡ no_actions }
{
    ActionsBefore {
        names: Names::new(alloc),
        curves_left: MAX_CURVES,
        keys_left: MAX_KEYS,
    }
}
