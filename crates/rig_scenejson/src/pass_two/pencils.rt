//! Reads pencils: their drawings, layers and keys of layers.
#![tactic(auto, using(crate::proofs::First::first_append))]

ghost use Rattle.std.specs.Prelude.{◌++◌};
ghost use Rattle.serde_json.specs.View.{view};
ghost use Rattle.rig_scenejson.specs.declared.member.Member.TheVariants as m;
ghost use Rattle.rig_scenejson.specs.Tests.{Tests, Reads, first, required, optional};
ghost use Rattle.rig_scenejson.specs.Value.{text_of};
ghost use Rattle.rig_scenejson.specs.Given.{has, text_at, bones_named, stroke_given, drawing_given, layer_key_given, bound_given};
ghost use Rattle.rig_scenejson.specs.Given.{layer_given, pencil_given};
ghost use Rattle.rig_scenejson.specs.PassOne.{after_any, where_true};
ghost use Rattle.rig_scenejson.specs.PassTwo.{known_faults, drawing_reference, layer_key_references, layer_references};
ghost use Rattle.rig_scenejson.specs.PassTwo.{pencil_references, armature_references_of};

use crate::fault::{Cause, Hop, SceneStop, moved, stop_for};
use crate::given::{
    Plain, frame_at, is_natural_below, items_of, list_at, name_at, natural_at, truth_at, values,
    vector_at,
};
use crate::lookup::{Lookup, armature_object, optional_known, required_known};
use crate::member::Member;
use crate::pass_one::records::{item_count, text_of};
use crate::reader::{Reader, read_list};
use crate::test::within;
use crate::value::field;
use rig_io::NoMemory;
use rig_scene::{BoneRef, Drawing, Layer, LayerKey, ObjectId, PencilData, Stroke};
use serde_json::Value;
use std::alloc::Global;

impl Plain for Stroke {
    ghost given = { stroke_given };

    fn given(alloc: Global, value: &Value) -> Result<Stroke, NoMemory> {
        Ok(Stroke {
            points: values(alloc, items_of(value))?,
        })
    }
}

impl Plain for Drawing {
    ghost given = { drawing_given };

    fn given(alloc: Global, value: &Value) -> Result<Drawing, NoMemory> {
        Ok(Drawing {
            strokes: list_at(alloc, Member::Strokes, value)?,
        })
    }
}

/// Reads a key of a layer, where the pencil has so many drawings.
#[derive(Clone, Copy, Drop)]
struct LayerKeyReader {
    drawings: usize,
}

impl Reader for LayerKeyReader {
    type Item = LayerKey;

    type Before = ();

    ghost gives = { λ _. layer_key_given };

    ghost faults = { λ reader. layer_key_references reader.drawings };

    ghost next = { λ _. after_any };

    fn read(
        &self,
        alloc: Global,
        _: usize,
        _: &mut (),
        value: &Value,
    ) -> Result<LayerKey, SceneStop> {
        let hop = Hop::Member(Member::Drawing);
        match field(value, Member::Drawing) {
            Some(drawing) => within(alloc, hop, test_drawing(alloc, self.drawings, drawing))?,
            None => return Err(moved(alloc, hop, stop_for(alloc, Cause::Missing))),
        }
        Ok(LayerKey {
            frame: frame_at(Member::Frame, value),
            drawing: natural_at(Member::Drawing, value),
        })
    }
}

// Tests that there is a drawing of this number.
fn test_drawing(alloc: Global, drawings: usize, value: &Value) -> Result<(), SceneStop>
    ensures { Tests result (first (drawing_reference drawings (view value.now))) }
{
    if is_natural_below(drawings, value) {
        Ok(())
    } else {
        Err(stop_for(alloc, Cause::UnknownRef))
    }
}

/// Reads a layer, where the pencil has so many drawings.
#[derive(Clone, Copy, Drop)]
struct LayerReader<'a> {
    lookup: &'a Lookup<'a>,
    drawings: usize,
}

impl Reader for LayerReader<'_> {
    type Item = Layer;

    type Before = ();

    ghost gives = { λ reader. layer_given reader.lookup.now };

    ghost faults = { λ reader. layer_references reader.lookup.now reader.drawings };

    ghost next = { λ _. after_any };

    fn read(&self, alloc: Global, _: usize, _: &mut (), value: &Value) -> Result<Layer, SceneStop> {
        let bound = bound_of(alloc, self.lookup, value)?;
        let keys = LayerKeyReader {
            drawings: self.drawings,
        };
        let keys = read_list(alloc, value, Member::Keys, &keys, &mut ())?;
        Ok(Layer {
            name: name_at(alloc, Member::Name, value)?,
            hidden: truth_at(false, Member::Hidden, value),
            offset: vector_at(Member::Offset, value),
            bound,
            keys,
        })
    }
}

// The bone that a layer is bound to.
fn bound_of(alloc: Global, lookup: &Lookup, value: &Value) -> Result<Option<BoneRef>, SceneStop>
    ensures { Reads result (bound_given lookup.now (view value.now))
        (first (optional m.Armature (armature_references_of lookup.now) (view value.now)
        ++ where_true (has m.Armature (view value.now))
        (required m.Bone (known_faults (bones_named lookup.now (text_at m.Armature (view value.now)))) (view value.now)))) }
{
    let Some(armature) = field(value, Member::Armature) else {
        return Ok(None);
    };
    let object = armature_object(alloc, lookup, armature);
    let object = within(alloc, Hop::Member(Member::Armature), object)?;
    let bones = lookup.bones_named(text_of(armature));
    let bone = required_known(alloc, bones, Member::Bone, value)?;
    Ok(Some(BoneRef {
        object: ObjectId(object),
        bone,
    }))
}

/// Reads a pencil.
#[derive(Clone, Copy, Drop)]
pub(super) struct PencilReader<'a> {
    pub(super) lookup: &'a Lookup<'a>,
}

impl Reader for PencilReader<'_> {
    type Item = PencilData;

    type Before = ();

    ghost gives = { λ reader. pencil_given reader.lookup.now };

    ghost faults = { λ reader. pencil_references reader.lookup.now };

    ghost next = { λ _. after_any };

    fn read(
        &self,
        alloc: Global,
        _: usize,
        _: &mut (),
        value: &Value,
    ) -> Result<PencilData, SceneStop> {
        let actions = &self.lookup.catalog().actions;
        let action = optional_known(alloc, actions, Member::Action, value)?;
        let layers = LayerReader {
            lookup: self.lookup,
            drawings: item_count(value, Member::Drawings),
        };
        let layers = read_list(alloc, value, Member::Layers, &layers, &mut ())?;
        Ok(PencilData {
            name: name_at(alloc, Member::Name, value)?,
            action,
            drawings: list_at(alloc, Member::Drawings, value)?,
            layers,
        })
    }
}
