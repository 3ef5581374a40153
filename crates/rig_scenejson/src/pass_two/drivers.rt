//! Reads drivers: their variables.
#![tactic(auto, using(crate::proofs::First::first_append))]

ghost use Rattle.std.specs.Prelude.{◌≡◌, ◌++◌, Err, IfOk, if◌then◌else◌};
ghost use Rattle.serde_json.specs.View.{view};
ghost use Rattle.rig_scenejson.specs.declared.member.Member.TheVariants as m;
ghost use Rattle.rig_scenejson.specs.declared.fault.Cause.TheVariants.{WrongIdKind};
ghost use Rattle.rig_scenejson.specs.Tests.{Tests, first, required, optional, in_member, fault};
ghost use Rattle.rig_scenejson.specs.Given.{text_at, index_of, rig_at, bones_named, object_named, id_given, space_given};
ghost use Rattle.rig_scenejson.specs.Given.{variable_given, driver_kind_given, driver_given};
ghost use Rattle.rig_scenejson.specs.PassOne.{after_any};
ghost use Rattle.rig_scenejson.specs.PassTwo.{known_faults, is_armature_rig, bone_of_faults, id_references, path_references};
ghost use Rattle.rig_scenejson.specs.PassTwo.{variable_references, driver_references};

use crate::fault::{Cause, Hop, SceneStop, moved, stop_for};
use crate::given::{channel_given, path_given};
use crate::lookup::{Lookup, index_of, optional_bone, required_known};
use crate::member::Member;
use crate::pass_one::records::{is_kind, names_pencil, text_at, text_of};
use crate::reader::{Reader, read_list};
use crate::value::field;
use rig_io::NoMemory;
use rig_scene::{AnimId, Driver, DriverKind, ObjectId, Space, Variable};
use serde_json::Value;
use std::alloc::Global;

/// Reads a driver.
#[derive(Clone, Copy, Drop)]
pub(super) struct DriverReader<'a> {
    pub(super) lookup: &'a Lookup<'a>,
}

impl Reader for DriverReader<'_> {
    type Item = Driver;

    type Before = ();

    ghost gives = { λ reader. driver_given reader.lookup.now };

    ghost faults = { λ reader. driver_references reader.lookup.now };

    ghost next = { λ _. after_any };

    fn read(
        &self,
        alloc: Global,
        _: usize,
        _: &mut (),
        value: &Value,
    ) -> Result<Driver, SceneStop> {
        test_id(alloc, self.lookup, value)?;
        test_path(alloc, self.lookup, value)?;
        let variables = VariableReader {
            lookup: self.lookup,
        };
        let variables = read_list(alloc, value, Member::Variables, &variables, &mut ())?;
        Ok(Driver {
            id: id_given(self.lookup, value),
            path: path_given(alloc, value)?,
            kind: driver_kind_given(value),
            variables,
        })
    }
}

fn driver_kind_given(value: &Value) -> DriverKind
    ensures { result ≡ driver_kind_given (view value.now) }
{
    if is_kind("average", value) {
        DriverKind::Average
    } else if is_kind("sum", value) {
        DriverKind::Sum
    } else if is_kind("min", value) {
        DriverKind::Min
    } else {
        DriverKind::Max
    }
}

// ---- ids and paths

// Tests that there is the object or the pencil that a record names.
fn test_id(alloc: Global, lookup: &Lookup, value: &Value) -> Result<(), SceneStop>
    ensures { Tests result (first (id_references lookup.now (view value.now))) }
{
    if names_pencil(value) {
        let pencils = &lookup.catalog().pencils;
        required_known(alloc, pencils, Member::Pencil, value)?;
    } else {
        let objects = &lookup.catalog().objects;
        required_known(alloc, objects, Member::Object, value)?;
    }
    Ok(())
}

fn id_given(lookup: &Lookup, value: &Value) -> AnimId
    ensures { result ≡ id_given lookup.now (view value.now) }
{
    if names_pencil(value) {
        let pencil = text_at(value, Member::Pencil);
        AnimId::Pencil(index_of(&lookup.catalog().pencils, pencil))
    } else {
        AnimId::Object(object_given(lookup, value))
    }
}

// The object that the member `object` names.
fn object_given(lookup: &Lookup, value: &Value) -> ObjectId
    ensures { result ≡ object_named lookup.now (text_at m.Object (view value.now)) }
{
    let object = text_at(value, Member::Object);
    ObjectId(index_of(&lookup.catalog().objects, object))
}

// Tests that the id of a record has its path.
fn test_path(alloc: Global, lookup: &Lookup, value: &Value) -> Result<(), SceneStop>
    ensures { Tests result (first (path_references lookup.now (view value.now))) }
{
    let has_bone = field(value, Member::Bone).is_some();
    let has_layer = field(value, Member::Layer).is_some();
    if names_pencil(value) {
        if has_bone || !has_layer {
            return Err(no_such_path(alloc));
        }
        let layers = lookup.layers_named(text_at(value, Member::Pencil));
        required_known(alloc, layers, Member::Layer, value)?;
    } else if has_bone {
        test_bone_path(alloc, lookup, value)?;
    } else if has_layer {
        return Err(no_such_path(alloc));
    }
    Ok(())
}

fn test_bone_path(alloc: Global, lookup: &Lookup, value: &Value) -> Result<(), SceneStop>
    ensures { Tests result (first (if is_armature_rig (rig_at lookup.now (index_of lookup.now.objects (text_at m.Object (view value.now))))
        then required m.Bone (known_faults (bones_named lookup.now (text_at m.Object (view value.now)))) (view value.now)
        else in_member m.Channel (fault WrongIdKind))) }
{
    let object = text_at(value, Member::Object);
    if !lookup.is_armature(object) {
        return Err(no_such_path(alloc));
    }
    required_known(alloc, lookup.bones_named(object), Member::Bone, value)?;
    Ok(())
}

// The fault of a path that no id of its kind has.
fn no_such_path(alloc: Global) -> SceneStop
    ensures { Tests {A = Unit {0}} (Err result) (first (in_member m.Channel (fault WrongIdKind))) }
{
    let stop = stop_for(alloc, Cause::WrongIdKind);
    moved(alloc, Hop::Member(Member::Channel), stop)
}

// ---- variables

/// Reads a variable of a driver.
#[derive(Clone, Copy, Drop)]
struct VariableReader<'a> {
    lookup: &'a Lookup<'a>,
}

impl Reader for VariableReader<'_> {
    type Item = Variable;

    type Before = ();

    ghost gives = { λ reader. variable_given reader.lookup.now };

    ghost faults = { λ reader. variable_references reader.lookup.now };

    ghost next = { λ _. after_any };

    fn read(
        &self,
        alloc: Global,
        _: usize,
        _: &mut (),
        value: &Value,
    ) -> Result<Variable, SceneStop> {
        test_variable(alloc, self.lookup, value)?;
        Ok(variable_of(alloc, self.lookup, value)?)
    }
}

// Tests what a variable refers to.
fn test_variable(alloc: Global, lookup: &Lookup, value: &Value) -> Result<(), SceneStop>
    ensures { Tests result (first (variable_references lookup.now 0 tt (view value.now))) }
{
    if is_kind("property", value) {
        test_id(alloc, lookup, value)?;
        test_path(alloc, lookup, value)?;
    }
    if is_kind("transform", value) {
        test_bone(alloc, lookup, value)?;
    }
    Ok(())
}

// Tests the object of a transform variable, and its bone where it is there.
fn test_bone(alloc: Global, lookup: &Lookup, value: &Value) -> Result<(), SceneStop>
    ensures { Tests result (first (required m.Object (known_faults lookup.now.objects) (view value.now)
        ++ optional m.Bone (bone_of_faults lookup.now (text_at m.Object (view value.now))) (view value.now))) }
{
    let objects = &lookup.catalog().objects;
    required_known(alloc, objects, Member::Object, value)?;
    let object = text_at(value, Member::Object);
    optional_bone(alloc, lookup, object, Member::Bone, value)?;
    Ok(())
}

fn variable_of(alloc: Global, lookup: &Lookup, value: &Value) -> Result<Variable, NoMemory>
    ensures { IfOk result (λ variable. variable ≡ variable_given lookup.now 0 (view value.now)) }
{
    if is_kind("transform", value) {
        Ok(Variable::Transform {
            object: object_given(lookup, value),
            space: space_given(lookup, value),
            channel: channel_given(value),
        })
    } else {
        Ok(Variable::Property {
            id: id_given(lookup, value),
            path: path_given(alloc, value)?,
        })
    }
}

fn space_given(lookup: &Lookup, value: &Value) -> Space
    ensures { result ≡ space_given lookup.now (view value.now) }
{
    match field(value, Member::Bone) {
        Some(bone) => {
            let bones = lookup.bones_named(text_at(value, Member::Object));
            Space::Pose(index_of(bones, text_of(bone)))
        }
        None if text_at(value, Member::Space) == "local" => Space::Local,
        None => Space::World,
    }
}
