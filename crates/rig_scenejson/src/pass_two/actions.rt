//! Reads actions: their curves and keys. They refer to nothing.
ghost use Rattle.std.specs.Prelude.{◌≡◌};
ghost use Rattle.serde_json.specs.View.{view};
ghost use Rattle.rig_scenejson.specs.Given.{interp_given, key_given, curve_given, action_record};

use crate::given::{Plain, fixed_at, frame_at, list_at, name_at, path_given};
use crate::member::Member;
use crate::pass_one::records::text_at;
use rig_fixed::Fx;
use rig_io::NoMemory;
use rig_scene::{Action, Curve, Interp, Key};
use serde_json::Value;
use std::alloc::Global;

fn interp_given(value: &Value) -> Interp
    ensures { result ≡ interp_given (view value.now) }
{
    if text_at(value, Member::Interp) == "constant" {
        Interp::Constant
    } else {
        Interp::Linear
    }
}

impl Plain for Key {
    ghost given = { key_given };

    fn given(_: Global, value: &Value) -> Result<Key, NoMemory> {
        Ok(Key {
            frame: frame_at(Member::Frame, value),
            interp: interp_given(value),
            value: fixed_at(Fx::ZERO, Member::Value, value),
        })
    }
}

impl Plain for Curve {
    ghost given = { curve_given };

    fn given(alloc: Global, value: &Value) -> Result<Curve, NoMemory> {
        Ok(Curve {
            path: path_given(alloc, value)?,
            keys: list_at(alloc, Member::Keys, value)?,
        })
    }
}

impl Plain for Action {
    ghost given = { action_record };

    fn given(alloc: Global, value: &Value) -> Result<Action, NoMemory> {
        Ok(Action {
            name: name_at(alloc, Member::Name, value)?,
            curves: list_at(alloc, Member::Curves, value)?,
        })
    }
}
