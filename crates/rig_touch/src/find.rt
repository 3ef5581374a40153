//! What the names of an edit mean in a scene.
ghost use Rattle.std.specs.Prelude.{◌≡◌, ◌<◌, ◌==◌, ◌^◌, length, option_map, option_and_then, slice_get, IfSome};
ghost use Rattle.std.specs.List.{find, position};
ghost use Rattle.std.specs.Option.{option_copied};
ghost use Rattle.rig_edits.specs.Named.{object_named, pencil_index, id_of, bone_index, bones_of_kind, modifiers_of};
ghost use Rattle.rig_scene.specs.Scene.{object_of, armature_of};
ghost use Rattle.rig_scene.specs.Text.{same_text};
ghost use Rattle.rig_touch.specs.Touch.{action_index, modifier_place};

use rig_edits::IdName;
use rig_scene::{
    Action, AnimId, ArmatureData, Kind, Layer, Modifier, Name, Object, ObjectId, PencilData,
    RestBone, Scene,
};

/// The id of a name.
pub(crate) fn id(scene: &Scene, name: &IdName) -> Option<AnimId>
    ensures { result ≡ id_of scene.now name.now }
{
    match name {
        IdName::Object(name) => Some(AnimId::Object(object_named(scene, name)?.id)),
        IdName::Pencil(name) => Some(AnimId::Pencil(pencil_index(scene, name)?)),
    }
}

/// The object of a name.
pub(crate) fn object_named<'a>(scene: &'a Scene, name: &Name) -> Option<&'a Object>
    ensures object { option_copied result ≡ object_named scene.now name.now }
    ensures few { IfSome result (λ object. length (modifiers_of object.now.kind) < 2 ^ 32) }
{
    named_object(scene.objects.as_slice(), name)
}

fn named_object<'a>(objects: &'a [Object], name: &Name) -> Option<&'a Object>
    ensures { option_copied result ≡ find (λ o. same_text o.name name.now) objects.now }
{
    objects.iter().find(|o| o.name == *name)
}

/// The object of an id.
pub(crate) fn object(scene: &Scene, id: ObjectId) -> Option<&Object>
    ensures { option_copied result ≡ object_of scene.now id }
{
    object_with(scene.objects.as_slice(), id)
}

fn object_with(objects: &[Object], id: ObjectId) -> Option<&Object>
    ensures { option_copied result ≡ find (λ o. o.id.0 == id.0) objects.now }
{
    objects.iter().find(|o| o.id == id)
}

/// The index of the pencil of a name.
pub(crate) fn pencil_index(scene: &Scene, name: &Name) -> Option<u32>
    ensures { result ≡ pencil_index scene.now name.now }
{
    position_named(pencils(scene), name)
}

/// The index of the action of a name.
pub(crate) fn action_index(scene: &Scene, name: &Name) -> Option<u32>
    ensures { result ≡ action_index scene.now name.now }
{
    position_named(actions(scene), name)
}

/// The index of the layer of a name in a pencil of a scene.
pub(crate) fn layer_index(scene: &Scene, pencil: u32, name: &Name) -> Option<u32>
    ensures { result ≡ option_and_then (λ pencil. position (λ l. same_text l.name name.now) pencil.layers) (slice_get scene.now.pencils pencil) }
{
    let pencil = pencil_at(scene, pencil)?;
    position_named(pencil.layers.as_slice(), name)
}

/// The pencil of an index.
pub(crate) fn pencil_at(scene: &Scene, index: u32) -> Option<&PencilData>
    ensures pencil { option_copied result ≡ slice_get scene.now.pencils index }
    ensures few { IfSome result (λ pencil. length pencil.now.layers < 2 ^ 32) }
{
    pencil_among(scene.pencils.as_slice(), index)
}

fn pencil_among(pencils: &[PencilData], index: u32) -> Option<&PencilData>
    ensures { option_copied result ≡ slice_get pencils.now index }
{
    pencils.get(index as usize)
}

/// The pencils of a scene.
pub(crate) fn pencils(scene: &Scene) -> &[PencilData]
    ensures pencils { result.now ≡ scene.now.pencils }
    ensures few { length result.now < 2 ^ 32 }
{
    scene.pencils.as_slice()
}

/// The actions of a scene.
fn actions(scene: &Scene) -> &[Action]
    ensures actions { result.now ≡ scene.now.actions }
    ensures few { length result.now < 2 ^ 32 }
{
    scene.actions.as_slice()
}

/// The armature of an index.
fn armature_at(scene: &Scene, index: u32) -> Option<&ArmatureData>
    ensures armature { option_copied result ≡ slice_get scene.now.armatures index }
    ensures few { IfSome result (λ armature. length armature.now.bones < 2 ^ 32) }
{
    armature_among(scene.armatures.as_slice(), index)
}

fn armature_among(armatures: &[ArmatureData], index: u32) -> Option<&ArmatureData>
    ensures { option_copied result ≡ slice_get armatures.now index }
{
    armatures.get(index as usize)
}

/// The index of the bone of a name of an object.
pub(crate) fn bone_index(scene: &Scene, object: &Object, name: &Name) -> Option<u32>
    ensures { result ≡ bone_index scene.now object.now.kind name.now }
{
    let Kind::Armature { armature, .. } = &object.kind else {
        return None;
    };
    let armature = armature_at(scene, *armature)?;
    position_named(armature.bones.as_slice(), name)
}

/// The index of the modifier of a name in the stack of an object.
pub(crate) fn modifier_place(object: &Object, name: &Name) -> Option<u32>
    requires { length (modifiers_of object.now.kind) < 2 ^ 32 }
    ensures place { result ≡ modifier_place object.now name.now }
    ensures within { IfSome result (λ place. place < length (modifiers_of object.now.kind)) }
{
    let Kind::Pencil { modifiers, .. } = &object.kind else {
        return None;
    };
    position_named(modifiers.as_slice(), name)
}

/// What has a name.
trait Named {
    ghost use Rattle.std.specs.Prelude.{ℕ, List};

    ghost name: { Self → List ℕ };

    fn has_name(&self, other: &Name) -> bool
        ensures { result ≡ same_text (name self.now) other.now };
}

// The index of the first of these values that has a name.
#[tactic(auto, using(rig_edits::specs::Lists::position_within))]
fn position_named<T: Named>(values: &[T], name: &Name) -> Option<u32>
    requires { length values.now < 2 ^ 32 }
    ensures named { result ≡ position (λ x. same_text (T.name x) name.now) values.now }
    ensures within { IfSome result (λ i. i < length values.now) }
{
    let index = position_of(values, name)?;
    Some(index as u32)
}

fn position_of<T: Named>(values: &[T], name: &Name) -> Option<usize>
    ensures { result ≡ position (λ x. same_text (T.name x) name.now) values.now }
{
    values.iter().position(|value| value.has_name(name))
}

impl Named for Action {
    ghost name = { λ x. x.name };

    fn has_name(&self, other: &Name) -> bool {
        self.name == *other
    }
}

impl Named for PencilData {
    ghost name = { λ x. x.name };

    fn has_name(&self, other: &Name) -> bool {
        self.name == *other
    }
}

impl Named for Layer {
    ghost name = { λ x. x.name };

    fn has_name(&self, other: &Name) -> bool {
        self.name == *other
    }
}

impl Named for RestBone {
    ghost name = { λ x. x.name };

    fn has_name(&self, other: &Name) -> bool {
        self.name == *other
    }
}

impl Named for Modifier {
    ghost name = { λ x. x.name };

    fn has_name(&self, other: &Name) -> bool {
        self.name == *other
    }
}
