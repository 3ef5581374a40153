//! Finds what a name means: the index of the first record of a list that has it.
ghost use Rattle.std.specs.Prelude.{◌≡◌, MatchOption};
ghost use Rattle.std.specs.List.{position};
ghost use Rattle.rig_scene.specs.Text.{same_text};
ghost use Rattle.rig_edits.specs.declared.cause.EditCause.TheVariants.{UnknownId};
ghost use Rattle.rig_edits.specs.Conditions.{lacks_object, when};
ghost use Rattle.rig_edits.specs.Steps.{Finds, FoundAt, FoundNowhere};

use crate::cause::EditCause;
use rig_scene::{Action, ArmatureData, Layer, Modifier, Name, Object, PencilData, RestBone, Scene};

/// What has a name.
pub(crate) trait Named {
    ghost use Rattle.std.specs.Prelude.{◌≡◌, ℕ, List};

    ghost name: { Self → List ℕ };

    /// Its name.
    fn name(&self) -> &Name
        ensures { result.now ≡ name self.now };
}

impl Named for Action {
    ghost name = { λ a. a.name };

    fn name(&self) -> &Name {
        &self.name
    }
}

impl Named for ArmatureData {
    ghost name = { λ a. a.name };

    fn name(&self) -> &Name {
        &self.name
    }
}

impl Named for RestBone {
    ghost name = { λ b. b.name };

    fn name(&self) -> &Name {
        &self.name
    }
}

impl Named for PencilData {
    ghost name = { λ p. p.name };

    fn name(&self) -> &Name {
        &self.name
    }
}

impl Named for Layer {
    ghost name = { λ l. l.name };

    fn name(&self) -> &Name {
        &self.name
    }
}

impl Named for Object {
    ghost name = { λ o. o.name };

    fn name(&self) -> &Name {
        &self.name
    }
}

impl Named for Modifier {
    ghost name = { λ m. m.name };

    fn name(&self) -> &Name {
        &self.name
    }
}

/// The index of the first value that has the name.
pub(crate) fn index_named<T: Named>(values: &[T], name: &Name) -> Option<usize>
    ensures { MatchOption result (FoundNowhere (λ x. same_text (T.name x) name.now) values.now)
        (FoundAt (λ x. same_text (T.name x) name.now) values.now) }
{
    position_named(values, name)
}

fn position_named<T: Named>(values: &[T], name: &Name) -> Option<usize>
    ensures { result ≡ position (λ x. same_text (T.name x) name.now) values.now }
{
    values.iter().position(|value| value.name() == name)
}

/// The index of the object of a name.
pub(crate) fn object_index(scene: &Scene, name: &Name) -> Result<usize, EditCause>
    ensures { Finds result (when UnknownId (lacks_object scene.now name.now))
        (FoundAt (λ o. same_text o.name name.now) scene.now.objects) }
{
    match index_named(scene.objects.as_slice(), name) {
        Some(index) => Ok(index),
        None => Err(EditCause::UnknownId),
    }
}
