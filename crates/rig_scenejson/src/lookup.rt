//! Finds what a name refers to, in the catalog that the first pass leaves.
#![tactic(auto, using(crate::proofs::First::first_append))]

ghost use Rattle.std.specs.Prelude.{◌≡◌, [], option_map};
ghost use Rattle.serde_json.specs.View.{view};
ghost use Rattle.rig_scenejson.specs.declared.member.Member.TheVariants as m;
ghost use Rattle.rig_scenejson.specs.Tests.{Reads, first, field, required, optional};
ghost use Rattle.rig_scenejson.specs.Value.{text_of};
ghost use Rattle.rig_scenejson.specs.Given.{text_at, index_of, rig_at, bones_at, bones_named};
ghost use Rattle.rig_scenejson.specs.PassTwo.{known_faults, is_armature_rig, bone_of_faults, data_bones, layers_named};
ghost use Rattle.rig_scenejson.specs.PassTwo.{armature_references_of};

use crate::before::{Catalog, Rig};
use crate::fault::{Cause, Hop, SceneStop, moved, stop_for};
use crate::member::Member;
use crate::pass_one::records::{text_at, text_of};
use crate::test::within;
use crate::value::field;
use rig_names::Names;
use serde_json::Value;
use std::alloc::Global;
use std::marker::Model;

/// The names of a scene. Contracts see it as its catalog.
#[derive(Drop)]
pub(crate) struct Lookup<'a> {
    catalog: &'a Catalog,
    /// The names of what has none.
    none: Names,
}

impl<'a> Model for Lookup<'a> {
    ghost use Rattle.std.specs.Prelude.{◌≡◌, []};
    ghost use Rattle.rig_scenejson.specs.declared.before.Catalog.{Catalog as CatalogRecord};

    ghost Value = { CatalogRecord };

    ghost view = { λ l. l.catalog.now };

    ghost invariant = { λ l. l.none ≡ [] };
}

impl<'a> Lookup<'a> {
    /// The names of a catalog.
    pub(crate) fn new(alloc: Global, catalog: &'a Catalog) -> Lookup<'a>
        ensures { result ≡ catalog.now }
    {
        Lookup {
            catalog,
            none: Names::new(alloc),
        }
    }

    /// The catalog itself.
    pub(crate) fn catalog(&self) -> &Catalog
        ensures { result.now ≡ self.now }
    {
        self.catalog
    }

    /// What carries an object of an index.
    fn rig_at(&self, object: u32) -> Rig
        ensures { result ≡ rig_at self.now object }
    {
        match self.catalog.rigs.as_slice().get(object as usize) {
            Some(rig) => *rig,
            None => Rig::NoArmature,
        }
    }

    /// Whether the object of a name is an armature object.
    pub(crate) fn is_armature(&self, object: &str) -> bool
        ensures { result ≡ is_armature_rig (rig_at self.now (index_of self.now.objects object.now)) }
    {
        match self.rig_at(index_of(&self.catalog.objects, object)) {
            Rig::NoArmature => false,
            Rig::UnknownArmature | Rig::Armature(_) => true,
        }
    }

    /// The names of the bones of an armature.
    pub(crate) fn bones_at(&self, armature: usize) -> &Names
        ensures { result.now ≡ bones_at self.now armature }
    {
        match self.catalog.bones.as_slice().get(armature) {
            Some(bones) => bones,
            None => &self.none,
        }
    }

    /// The names of the bones of the object of a name.
    pub(crate) fn bones_named(&self, object: &str) -> &Names
        ensures { result.now ≡ bones_named self.now object.now }
    {
        match self.rig_at(index_of(&self.catalog.objects, object)) {
            Rig::NoArmature | Rig::UnknownArmature => &self.none,
            Rig::Armature(armature) => self.bones_at(armature as usize),
        }
    }

    /// The names of the bones of the armature that a record's `data` names.
    pub(crate) fn data_bones(&self, value: &Value) -> &Names
        ensures { result.now ≡ data_bones self.now (view value.now) }
    {
        match self
            .catalog
            .armatures
            .index_of(text_at(value, Member::Data))
        {
            Some(armature) => self.bones_at(armature as usize),
            None => &self.none,
        }
    }

    /// The names of the layers of the pencil of a name.
    pub(crate) fn layers_named(&self, pencil: &str) -> &Names
        ensures { result.now ≡ layers_named self.now pencil.now }
    {
        let pencil = index_of(&self.catalog.pencils, pencil);
        match self.catalog.layers.as_slice().get(pencil as usize) {
            Some(layers) => layers,
            None => &self.none,
        }
    }
}

/// The index of a name, 0 where it isn't there.
pub(crate) fn index_of(names: &Names, text: &str) -> u32
    ensures { result ≡ index_of names.now text.now }
{
    names.index_of(text).unwrap_or(0)
}

/// The index of the name that a value is.
pub(crate) fn known(alloc: Global, names: &Names, value: &Value) -> Result<u32, SceneStop>
    ensures { Reads result (index_of names.now (text_of (view value.now))) (first (known_faults names.now (view value.now))) }
{
    match names.index_of(text_of(value)) {
        Some(index) => Ok(index),
        None => Err(stop_for(alloc, Cause::UnknownRef)),
    }
}

/// The index of the name that a member is.
pub(crate) fn required_known(
    alloc: Global,
    names: &Names,
    member: Member,
    value: &Value,
) -> Result<u32, SceneStop>
    ensures { Reads result (index_of names.now (text_at member (view value.now)))
        (first (required member (known_faults names.now) (view value.now))) }
{
    match field(value, member) {
        Some(found) => within(alloc, Hop::Member(member), known(alloc, names, found)),
        None => Err(moved(alloc, Hop::Member(member), stop_for(alloc, Cause::Missing))),
    }
}

/// The index of the name that a member is, where it is there.
pub(crate) fn optional_known(
    alloc: Global,
    names: &Names,
    member: Member,
    value: &Value,
) -> Result<Option<u32>, SceneStop>
    ensures { Reads result (option_map (λ name. index_of names.now (text_of name)) (field member (view value.now)))
        (first (optional member (known_faults names.now) (view value.now))) }
{
    match field(value, member) {
        Some(found) => {
            let index = within(alloc, Hop::Member(member), known(alloc, names, found))?;
            Ok(Some(index))
        }
        None => Ok(None),
    }
}

/// The index of the armature object that a value names.
pub(crate) fn armature_object(
    alloc: Global,
    lookup: &Lookup,
    value: &Value,
) -> Result<u32, SceneStop>
    ensures { Reads result (index_of lookup.now.objects (text_of (view value.now)))
        (first (armature_references_of lookup.now (view value.now))) }
{
    let object = known(alloc, &lookup.catalog.objects, value)?;
    if !lookup.is_armature(text_of(value)) {
        return Err(stop_for(alloc, Cause::WrongIdKind));
    }
    Ok(object)
}

/// The index of a bone of the object of a name.
pub(crate) fn bone_of(
    alloc: Global,
    lookup: &Lookup,
    object: &str,
    value: &Value,
) -> Result<u32, SceneStop>
    ensures { Reads result (index_of (bones_named lookup.now object.now) (text_of (view value.now)))
        (first (bone_of_faults lookup.now object.now (view value.now))) }
{
    if !lookup.is_armature(object) {
        return Err(stop_for(alloc, Cause::WrongIdKind));
    }
    known(alloc, lookup.bones_named(object), value)
}

/// The index of the bone that a member names, of the object of a name, where the member is there.
pub(crate) fn optional_bone(
    alloc: Global,
    lookup: &Lookup,
    object: &str,
    member: Member,
    value: &Value,
) -> Result<Option<u32>, SceneStop>
    ensures { Reads result
        (option_map (λ bone. index_of (bones_named lookup.now object.now) (text_of bone)) (field member (view value.now)))
        (first (optional member (bone_of_faults lookup.now object.now) (view value.now))) }
{
    match field(value, member) {
        Some(found) => {
            let bone = bone_of(alloc, lookup, object, found);
            Ok(Some(within(alloc, Hop::Member(member), bone)?))
        }
        None => Ok(None),
    }
}
