//! Whole numbers of 64 bits: the version of the format, the number of a drawing.
ghost use Rattle.serde_json.specs.View.{view};
ghost use Rattle.rig_scenejson.specs.Tests.{Decides};
ghost use Rattle.rig_scenejson.specs.Value.{whole_of, integer_faults};
ghost use Rattle.rig_scenejson.specs.PassOne.{after_any};

use crate::fault::{Cause, SceneStop, stop_for};
use crate::test::Test;
use serde_json::Value;
use std::alloc::Global;

/// Any whole number of 64 bits.
#[derive(Clone, Copy, Drop)]
pub(crate) struct AnyInteger;

impl Test for AnyInteger {
    type Before = ();

    ghost faults = { λ _ _. integer_faults };

    ghost next = { λ _. after_any };

    fn test(&self, alloc: Global, _: &mut (), value: &Value) -> Result<(), SceneStop> {
        match integer(value) {
            Ok(_) => Ok(()),
            Err(cause) => Err(stop_for(alloc, cause)),
        }
    }
}

/// The whole number that a value is.
pub(crate) fn integer(value: &Value) -> Result<i64, Cause>
    ensures { Decides result (whole_of (view value.now)) (integer_faults (view value.now)) }
{
    if !value.is_number() {
        return Err(Cause::WrongKind);
    }
    match value.as_i64() {
        Some(number) => Ok(number),
        None => Err(Cause::NotWhole),
    }
}
