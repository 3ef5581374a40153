//! Modifiers of a pencil object: switched, added and removed.
ghost use Rattle.std.specs.Prelude.{◌≡◌, ◌<◌, ◌≤◌, ◌++◌, ◌∷◌, [], not, length, remove, OnOk, OnErr};
ghost use Rattle.rig_scene.specs.declared.limits.TheConstants.{MAX_MODIFIERS};
ghost use Rattle.rig_scene.specs.Text.{same_text};
ghost use Rattle.rig_scene.specs.WellFormed.{is_pencil_kind};
ghost use Rattle.rig_edits.specs.declared.cause.EditCause.TheVariants.{UnknownId, WrongKind, OutOfRange};
ghost use Rattle.rig_edits.specs.declared.edit.Edit.TheVariants.{SetFlag, AddModifier, RemoveModifier};
ghost use Rattle.rig_edits.specs.declared.edit.Flag.TheVariants.{Switch};
ghost use Rattle.rig_edits.specs.Answers.{Applies};
ghost use Rattle.rig_edits.specs.Conditions.{lacks_centre, is_effect_in_range, when};
ghost use Rattle.rig_edits.specs.Edited.{with_switch};
ghost use Rattle.rig_edits.specs.Modifiers.{modifier_cause, stack_cause, room_cause, adding_cause};
ghost use Rattle.rig_edits.specs.Modifiers.{ModifierAt, HasModifier, NewModifierAt, stack_changed_at, centre_named, effect_about};
ghost use Rattle.rig_edits.specs.Named.{modifiers_of, update_at};
ghost use Rattle.rig_edits.specs.Steps.{Finds, FoundAt};

use crate::cause::{EditCause, EditStop};
use crate::edit::NewEffect;
use crate::find::{index_named, object_index};
use crate::full::room_for;
use crate::whole::{count_of, location_of, value_of};
use rig_io::{List, NoMemory};
use rig_scene::limits::MAX_MODIFIERS;
use rig_scene::{Effect, Kind, Mirror, Mode, Modifier, Name, Object, ObjectId, Scene};

/// Sets a switch of a modifier of a pencil object.
pub(crate) fn set_switch(
    scene: &mut Scene,
    object: &Name,
    modifier: &Name,
    mode: Mode,
    on: bool,
) -> Result<(), EditStop>
    ensures { Applies result scene.old scene.new (SetFlag (Switch object.now modifier.now mode) on) }
{
    let (object, modifier) = modifier_indices(scene, object, modifier)?;
    switch(&mut scene.objects, object, modifier, mode, on);
    Ok(())
}

/// Adds a modifier behind the others of a pencil object.
pub(crate) fn add_modifier(
    scene: &mut Scene,
    object: &Name,
    name: &Name,
    viewport: bool,
    render: bool,
    effect: &NewEffect,
) -> Result<(), EditStop>
    ensures { Applies result scene.old scene.new (AddModifier object.now name.now viewport render effect.now) }
{
    let (object, effect) = object_and_effect(scene, object, name, effect)?;
    let modifier = Modifier {
        name: name.copy()?,
        viewport,
        render,
        effect,
    };
    push_modifier(&mut scene.objects, object, modifier)?;
    Ok(())
}

/// Takes a modifier out of the stack of a pencil object.
pub(crate) fn remove_modifier(
    scene: &mut Scene,
    object: &Name,
    modifier: &Name,
) -> Result<(), EditStop>
    ensures { Applies result scene.old scene.new (RemoveModifier object.now modifier.now) }
{
    let (object, modifier) = modifier_indices(scene, object, modifier)?;
    drop_modifier(&mut scene.objects, object, modifier);
    Ok(())
}

/// The index of the object that gets a new modifier, and what the modifier does, or the first of the causes against it.
fn object_and_effect(
    scene: &Scene,
    object: &Name,
    name: &Name,
    effect: &NewEffect,
) -> Result<(usize, Effect), EditCause>
    ensures { Finds result (adding_cause scene.now object.now name.now effect.now)
        (λ found. NewModifierAt scene.now object.now effect.now found.0 found.1) }
{
    let object = object_index(scene, object)?;
    let centre = centre_of(scene, effect)?;
    let stack = stack_of(&scene.objects.get(object).kind)?;
    let effect = effect_of(effect, centre)?;
    room_in_stack(stack, name)?;
    Ok((object, effect))
}

/// The indices of the object of a name, and of the modifier of a name in its stack.
fn modifier_indices(
    scene: &Scene,
    object: &Name,
    modifier: &Name,
) -> Result<(usize, usize), EditCause>
    ensures { Finds result (modifier_cause scene.now object.now modifier.now)
        (λ indices. ModifierAt scene.now object.now modifier.now indices.0 indices.1) }
{
    let object = object_index(scene, object)?;
    let modifier = modifier_index(&scene.objects.get(object).kind, modifier)?;
    Ok((object, modifier))
}

/// The index of the modifier of a name of a kind of object: `WrongKind` where it is no pencil object, and `UnknownPart` where none of
/// its modifiers has the name.
fn modifier_index(kind: &Kind, name: &Name) -> Result<usize, EditCause>
    ensures { Finds result (stack_cause kind.now name.now) (FoundAt (λ m. same_text m.name name.now) (modifiers_of kind.now)) }
{
    match index_named(stack_of(kind)?.as_slice(), name) {
        Some(index) => Ok(index),
        None => Err(EditCause::UnknownPart),
    }
}

/// The stack of a kind of object: `WrongKind` where it is no pencil object.
fn stack_of(kind: &Kind) -> Result<&List<Modifier>, EditCause>
    ensures { Finds result (when WrongKind (not (is_pencil_kind kind.now))) (λ stack. stack.now ≡ modifiers_of kind.now) }
{
    match kind {
        Kind::Pencil { modifiers, .. } => Ok(modifiers),
        Kind::Empty | Kind::Armature { .. } => Err(EditCause::WrongKind),
    }
}

/// Whether a modifier of a name may be added to a stack: `Duplicate` where the name stands there, and `Full` where there is no
/// room for one more.
fn room_in_stack(stack: &List<Modifier>, name: &Name) -> Result<(), EditCause>
    requires { length stack.now ≤ MAX_MODIFIERS }
    ensures { Finds result (room_cause stack.now name.now) (λ _. Unit {0}) }
{
    match index_named(stack.as_slice(), name) {
        Some(_) => Err(EditCause::Duplicate),
        None => room_for(stack.len(), 1, MAX_MODIFIERS),
    }
}

/// The object at which a new mirror mirrors, where it names one.
fn centre_of(scene: &Scene, effect: &NewEffect) -> Result<Option<ObjectId>, EditCause>
    ensures { Finds result (when UnknownId (lacks_centre scene.now effect.now)) (λ centre. centre ≡ centre_named scene.now effect.now) }
{
    match effect {
        NewEffect::Mirror {
            object: Some(name),
            ..
        } => {
            let object = object_index(scene, name)?;
            Ok(Some(scene.objects.get(object).id))
        }
        NewEffect::Mirror { .. } | NewEffect::Offset { .. } | NewEffect::Array { .. } => Ok(None),
    }
}

/// What a new modifier does, with the object at which it mirrors.
fn effect_of(effect: &NewEffect, centre: Option<ObjectId>) -> Result<Effect, EditCause>
    ensures { Finds result (when OutOfRange (not (is_effect_in_range effect.now))) (λ e. e ≡ effect_about centre effect.now) }
{
    match effect {
        NewEffect::Offset { loc, scale } => {
            let loc = location_of(loc)?;
            let scale = value_of(*scale)?;
            Ok(Effect::Offset { loc, scale })
        }
        NewEffect::Mirror { x, y, z, .. } => Ok(Effect::Mirror(Mirror {
            x: *x,
            y: *y,
            z: *z,
            centre,
        })),
        NewEffect::Array { count, offset } => {
            let count = count_of(*count)?;
            let offset = location_of(offset)?;
            Ok(Effect::Array { count, offset })
        }
    }
}

/// Sets a switch of the modifier at an index of the stack of the object at an index.
fn switch(objects: &mut List<Object>, object: usize, modifier: usize, mode: Mode, on: bool)
    requires { HasModifier objects.old object modifier }
    ensures { objects.new ≡ stack_changed_at (update_at (with_switch mode on) modifier) object objects.old }
{
    if let Kind::Pencil { modifiers, .. } = &mut objects.get_mut(object).kind {
        let modifier = modifiers.get_mut(modifier);
        match mode {
            Mode::Viewport => modifier.viewport = on,
            Mode::Render => modifier.render = on,
        }
    }
}

/// Adds a modifier behind the others of the object at an index, where it is a pencil object.
fn push_modifier(
    objects: &mut List<Object>,
    object: usize,
    modifier: Modifier,
) -> Result<(), NoMemory>
    requires { object < length objects.old }
    ensures ok { OnOk result (objects.new ≡ stack_changed_at (λ modifiers. modifiers ++ modifier ∷ []) object objects.old) }
    ensures err { OnErr result (objects.new ≡ objects.old) }
{
    match &mut objects.get_mut(object).kind {
        Kind::Pencil { modifiers, .. } => modifiers.push(modifier),
        Kind::Empty | Kind::Armature { .. } => Ok(()),
    }
}

/// Takes the modifier at an index out of the stack of the object at an index.
fn drop_modifier(objects: &mut List<Object>, object: usize, modifier: usize)
    requires { HasModifier objects.old object modifier }
    ensures { objects.new ≡ stack_changed_at (λ modifiers. remove modifiers modifier) object objects.old }
{
    if let Kind::Pencil { modifiers, .. } = &mut objects.get_mut(object).kind {
        modifiers.remove(modifier);
    }
}
