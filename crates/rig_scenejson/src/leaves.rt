//! Tests of single values: numbers, truth values, words, names and vectors.
ghost use Rattle.std.specs.Prelude.{◌≡◌, ◌++◌, ◌∷◌, [], int_lt, map, not, true, Some, is_some, OnOk};
ghost use Rattle.std.specs.Option.{option_map_or};
ghost use Rattle.std.specs.List.{list_any};
ghost use Rattle.std.specs.Result.{result_map_both};
ghost use Rattle.serde_json.specs.View.{view};
ghost use Rattle.rig_scene.specs.Channel.{channel_named};
ghost use Rattle.rig_scene.specs.Text.{same_text};
ghost use Rattle.rig_scenejson.specs.Tests.{Tests, Decides, first, unless};
ghost use Rattle.rig_scenejson.specs.Value.{text_of, whole_faults, truth_faults, name_faults, word_faults, is_among, vector_faults};
ghost use Rattle.rig_scenejson.specs.PassOne.{new_name_faults, after_name, after_any, rising_frame_faults, after_frame};

use crate::fault::{Cause, SceneStop, stop_for};
use crate::test::{Test, test_items};
use crate::value::number;
use rig_fixed::LIMIT;
use rig_names::Names;
use rig_scene::limits::{MAX_FRAME, MIN_FRAME};
use rig_scene::{Channel, Name};
use serde_json::Value;
use std::alloc::Global;

/// A whole number from the least to the most.
#[derive(Clone, Copy, Drop)]
pub(crate) struct Whole {
    pub(crate) least: i64,
    pub(crate) most: i64,
}

/// A number of millionths within the limits.
pub(crate) const NUMBER: Whole = Whole {
    least: -LIMIT,
    most: LIMIT,
};

impl Test for Whole {
    type Before = ();

    ghost faults = { λ whole _. whole_faults whole.least whole.most };

    ghost next = { λ _. after_any };

    fn test(&self, alloc: Global, _: &mut (), value: &Value) -> Result<(), SceneStop> {
        match number(value, self.least, self.most) {
            Ok(_) => Ok(()),
            Err(cause) => Err(stop_for(alloc, cause)),
        }
    }
}

/// A frame within the limits that is above the one before it.
#[derive(Clone, Copy, Drop)]
pub(crate) struct RisingFrame;

impl Test for RisingFrame {
    type Before = Option<i64>;

    ghost faults = { λ _. rising_frame_faults };

    ghost next = { λ _. after_frame };

    fn test(
        &self,
        alloc: Global,
        before: &mut Option<i64>,
        value: &Value,
    ) -> Result<(), SceneStop> {
        match number(value, i64::from(MIN_FRAME), i64::from(MAX_FRAME)) {
            Ok(frame) => test_above(alloc, before, frame),
            Err(cause) => Err(stop_for(alloc, cause)),
        }
    }
}

// Tests that a frame is above the one before it, in whose place it comes.
fn test_above(alloc: Global, before: &mut Option<i64>, frame: i64) -> Result<(), SceneStop>
    ensures first { Tests result (first (unless (option_map_or (λ last. int_lt last frame) before.old true) Cause.Unordered)) }
    ensures next { OnOk result (before.new ≡ Some frame) }
{
    if !is_above(*before, frame) {
        return Err(stop_for(alloc, Cause::Unordered));
    }
    *before = Some(frame);
    Ok(())
}

fn is_above(before: Option<i64>, frame: i64) -> bool
    ensures { result ≡ option_map_or (λ last. int_lt last frame) before true }
{
    match before {
        Some(last) => last < frame,
        None => true,
    }
}

/// A truth value.
#[derive(Clone, Copy, Drop)]
pub(crate) struct Truth;

impl Test for Truth {
    type Before = ();

    ghost faults = { λ _ _. truth_faults };

    ghost next = { λ _. after_any };

    fn test(&self, alloc: Global, _: &mut (), value: &Value) -> Result<(), SceneStop> {
        match value.as_bool() {
            Some(_) => Ok(()),
            None => Err(stop_for(alloc, Cause::WrongKind)),
        }
    }
}

/// A name.
#[derive(Clone, Copy, Drop)]
pub(crate) struct AnyName;

impl Test for AnyName {
    type Before = ();

    ghost faults = { λ _ _. name_faults };

    ghost next = { λ _. after_any };

    fn test(&self, alloc: Global, _: &mut (), value: &Value) -> Result<(), SceneStop> {
        match name_text(value) {
            Ok(_) => Ok(()),
            Err(cause) => Err(stop_for(alloc, cause)),
        }
    }
}

// The text of a name.
fn name_text(value: &Value) -> Result<&str, Cause>
    ensures { Decides (result_map_both (λ text. text.now) (λ cause. cause) result) (text_of (view value.now))
        (name_faults (view value.now)) }
{
    let Some(text) = value.as_str() else {
        return Err(Cause::WrongKind);
    };
    if !Name::is_name(text.as_bytes()) {
        return Err(Cause::BadName);
    }
    Ok(text)
}

/// A name that is none of those before it in its list, to which it is added.
#[derive(Clone, Copy, Drop)]
pub(crate) struct NewName;

impl Test for NewName {
    type Before = Names;

    ghost faults = { λ _. new_name_faults };

    ghost next = { λ _. after_name };

    fn test(&self, alloc: Global, before: &mut Names, value: &Value) -> Result<(), SceneStop> {
        match name_text(value) {
            Ok(text) => add_name(alloc, before, text),
            Err(cause) => Err(stop_for(alloc, cause)),
        }
    }
}

// Adds a name that may not be there yet.
fn add_name(alloc: Global, before: &mut Names, text: &str) -> Result<(), SceneStop>
    ensures first { Tests result (first (unless (not (list_any (same_text text.now) before.old)) Cause.Duplicate)) }
    ensures next { OnOk result (before.new ≡ before.old ++ text.now ∷ []) }
{
    match before.add(alloc, text) {
        Ok(true) => Ok(()),
        Ok(false) => Err(stop_for(alloc, Cause::Duplicate)),
        Err(_) => Err(SceneStop::NoMemory),
    }
}

/// One of these words.
#[derive(Clone, Copy, Drop)]
pub(crate) struct WordOf<'a> {
    pub(crate) words: &'a [&'a str],
}

impl Test for WordOf<'_> {
    type Before = ();

    ghost faults = { λ w _. word_faults (is_among (map (λ word. word.now) w.words.now)) };

    ghost next = { λ _. after_any };

    fn test(&self, alloc: Global, _: &mut (), value: &Value) -> Result<(), SceneStop> {
        match value.as_str() {
            Some(text) if is_among(self.words, text) => Ok(()),
            Some(_) => Err(stop_for(alloc, Cause::OutOfRange)),
            None => Err(stop_for(alloc, Cause::WrongKind)),
        }
    }
}

fn is_among(words: &[&str], text: &str) -> bool
    ensures { result ≡ is_among (map (λ word. word.now) words.now) text.now }
{
    words.iter().any(|word| text == *word)
}

/// The word of a channel of a transform.
#[derive(Clone, Copy, Drop)]
pub(crate) struct ChannelWord;

impl Test for ChannelWord {
    type Before = ();

    ghost faults = { λ _ _. word_faults (λ s. is_some (channel_named s)) };

    ghost next = { λ _. after_any };

    fn test(&self, alloc: Global, _: &mut (), value: &Value) -> Result<(), SceneStop> {
        match value.as_str() {
            Some(text) if Channel::of_word(text).is_some() => Ok(()),
            Some(_) => Err(stop_for(alloc, Cause::OutOfRange)),
            None => Err(stop_for(alloc, Cause::WrongKind)),
        }
    }
}

/// An array of exactly so many numbers.
#[derive(Clone, Copy, Drop)]
pub(crate) struct Numbers {
    pub(crate) count: usize,
}

/// A location, an offset or a point.
pub(crate) const VECTOR: Numbers = Numbers { count: 3 };

/// A rotation.
pub(crate) const ROTATION: Numbers = Numbers { count: 4 };

impl Test for Numbers {
    type Before = ();

    ghost faults = { λ numbers _. vector_faults numbers.count };

    ghost next = { λ _. after_any };

    #[tactic(auto, using(crate::proofs::Counts::item_count_of_view))]
    fn test(&self, alloc: Global, _: &mut (), value: &Value) -> Result<(), SceneStop> {
        let Some(items) = value.as_array() else {
            return Err(stop_for(alloc, Cause::WrongKind));
        };
        if items.len() != self.count {
            return Err(stop_for(alloc, Cause::WrongKind));
        }
        test_items(alloc, &NUMBER, &mut (), items.as_slice())
    }
}
