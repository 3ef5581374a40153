//! Tests pencils: their drawings, layers and keys of layers.
#![tactic(auto, using(crate::proofs::First::first_append))]

ghost use Rattle.std.specs.Prelude.{◌≡◌, ◌≤◌, ◌-◌};
ghost use Rattle.std.specs.Option.{SomeIff};
ghost use Rattle.serde_json.specs.View.{view, items_view};
ghost use Rattle.rig_scenejson.specs.Tests.{Tests, first};
ghost use Rattle.rig_scenejson.specs.Value.{item_count};
ghost use Rattle.rig_scenejson.specs.PassOne.{points_in, strokes_faults, after_strokes, drawing_faults, after_drawing};
ghost use Rattle.rig_scenejson.specs.PassOne.{after_key, layer_key_faults, bound_faults, layer_faults, after_layer};
ghost use Rattle.rig_scenejson.specs.PassOne.{pencil_faults, after_pencil, no_pencils};

use crate::before::{LayersBefore, PencilsBefore};
use crate::fault::{Cause, SceneStop, stop_for};
use crate::leaves::{AnyName, Numbers, RisingFrame, Truth, VECTOR};
use crate::member::Member;
use crate::pass_one::integers::AnyInteger;
use crate::pass_one::members::{test_list, test_name};
use crate::pass_one::records::{array_len, item_count};
use crate::test::{ListOf, MAX_INDEX, Test, is_record, optional, required, test_items};
use crate::value::field;
use rig_io::List;
use rig_names::Names;
use rig_scene::limits::{MAX_DRAWINGS, MAX_LAYER_KEYS, MAX_LAYERS, MAX_POINTS};
use serde_json::Value;
use std::alloc::Global;

/// A stroke: an array of at least one point.
const STROKE: ListOf<Numbers> = ListOf {
    least: 1,
    most: MAX_INDEX,
    each: VECTOR,
};

/// The strokes of a drawing, with how many more points the scene may have.
#[derive(Clone, Copy, Drop)]
struct Strokes;

impl Test for Strokes {
    type Before = usize;

    ghost faults = { λ _. strokes_faults };

    ghost next = { λ _. after_strokes };

    fn test(&self, alloc: Global, points_left: &mut usize, value: &Value) -> Result<(), SceneStop> {
        let Some(strokes) = value.as_array() else {
            return Err(stop_for(alloc, Cause::WrongKind));
        };
        let Some(left) = points_after(*points_left, strokes.as_slice()) else {
            return Err(stop_for(alloc, Cause::Count));
        };
        test_items(alloc, &STROKE, &mut (), strokes.as_slice())?;
        *points_left = left;
        Ok(())
    }
}

/// How many more points the scene may have after these strokes: `None` where they have too many. What is no array has no point.
fn points_after(points_left: usize, strokes: &[Value]) -> Option<usize>
    ensures { SomeIff result (points_in (items_view strokes.now) ≤ points_left) (points_left - points_in (items_view strokes.now)) }
{
    let mut left = points_left;
    for stroke in strokes {
        left = left.checked_sub(array_len(stroke))?;
    }
    Some(left)
}

/// A drawing, with how many more points the scene may have.
#[derive(Clone, Copy, Drop)]
struct DrawingTest;

impl Test for DrawingTest {
    type Before = usize;

    ghost faults = { λ _. drawing_faults };

    ghost next = { λ _. after_drawing };

    #[tactic(auto, using(crate::proofs::First::first_append, crate::proofs::Members::after_optional_strokes))]
    fn test(&self, alloc: Global, points_left: &mut usize, value: &Value) -> Result<(), SceneStop> {
        is_record(alloc, value)?;
        optional(alloc, value, Member::Strokes, &Strokes, points_left)
    }
}

/// A key of a layer, after the frame of the one before it. Its drawing is looked up in the second pass.
#[derive(Clone, Copy, Drop)]
struct LayerKeyTest;

impl Test for LayerKeyTest {
    type Before = Option<i64>;

    ghost faults = { λ _. layer_key_faults };

    ghost next = { λ _. after_key };

    fn test(
        &self,
        alloc: Global,
        before: &mut Option<i64>,
        value: &Value,
    ) -> Result<(), SceneStop> {
        is_record(alloc, value)?;
        required(alloc, value, Member::Frame, &RisingFrame, before)?;
        required(alloc, value, Member::Drawing, &AnyInteger, &mut ())
    }
}

/// A layer, after those of the pencil before it.
#[derive(Clone, Copy, Drop)]
struct LayerTest;

impl Test for LayerTest {
    type Before = LayersBefore;

    ghost faults = { λ _. layer_faults };

    ghost next = { λ _. after_layer };

    fn test(
        &self,
        alloc: Global,
        before: &mut LayersBefore,
        value: &Value,
    ) -> Result<(), SceneStop> {
        is_record(alloc, value)?;
        test_name(alloc, value, Member::Name, &mut before.names)?;
        optional(alloc, value, Member::Hidden, &Truth, &mut ())?;
        optional(alloc, value, Member::Offset, &VECTOR, &mut ())?;
        test_bound(alloc, value)?;
        let most = before.keys_left;
        test_list(alloc, value, Member::Keys, most, LayerKeyTest, &mut None)?;
        before.keys_left = most.saturating_sub(item_count(value, Member::Keys));
        Ok(())
    }
}

// The bone that a layer is bound to.
fn test_bound(alloc: Global, value: &Value) -> Result<(), SceneStop>
    ensures { Tests result (first (bound_faults (view value.now))) }
{
    optional(alloc, value, Member::Armature, &AnyName, &mut ())?;
    if field(value, Member::Armature).is_some() {
        required(alloc, value, Member::Bone, &AnyName, &mut ())?;
    }
    Ok(())
}

/// A pencil, after those before it.
#[derive(Clone, Copy, Drop)]
pub(crate) struct PencilTest;

impl Test for PencilTest {
    type Before = PencilsBefore;

    ghost faults = { λ _. pencil_faults };

    ghost next = { λ _. after_pencil };

    fn test(
        &self,
        alloc: Global,
        before: &mut PencilsBefore,
        value: &Value,
    ) -> Result<(), SceneStop> {
        is_record(alloc, value)?;
        test_name(alloc, value, Member::Name, &mut before.names)?;
        optional(alloc, value, Member::Action, &AnyName, &mut ())?;
        let most = before.drawings_left;
        let points_left = &mut before.points_left;
        test_list(
            alloc,
            value,
            Member::Drawings,
            most,
            DrawingTest,
            points_left,
        )?;
        before.drawings_left = most.saturating_sub(item_count(value, Member::Drawings));
        let mut layers = LayersBefore {
            names: Names::new(alloc),
            keys_left: before.keys_left,
        };
        test_list(
            alloc,
            value,
            Member::Layers,
            MAX_LAYERS,
            LayerTest,
            &mut layers,
        )?;
        before.keys_left = layers.keys_left;
        before.layers.push(layers.names)?;
        Ok(())
    }
}

/// Before the first pencil.
pub(crate) fn no_pencils(alloc: Global) -> PencilsBefore
    ensures { result ≡ no_pencils }
{
    PencilsBefore {
        names: Names::new(alloc),
        layers: List::new(alloc),
        drawings_left: MAX_DRAWINGS,
        points_left: MAX_POINTS,
        keys_left: MAX_LAYER_KEYS,
    }
}
