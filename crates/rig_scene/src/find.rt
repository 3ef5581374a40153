//! How an object is found by its name.
ghost use Rattle.std.specs.Prelude.{◌≡◌, ◌≢◌, IfSome, IfNone};
ghost use Rattle.std.specs.List.{All, Any};
ghost use Rattle.rig_scene.specs.Find.{id_named};

use crate::id::ObjectId;
use crate::name::Name;
use crate::object::Object;
use crate::scene::Scene;

impl Scene {
    /// The id of the object of that name: `None` exactly where no object has it.
    pub fn find(&self, name: &Name) -> Option<ObjectId>
        ensures named { result ≡ id_named name.now self.now.objects }
        ensures found { IfSome result (λ id. Any (λ o. (o.id ≡ id) × (o.name ≡ name.now)) self.now.objects) }
        ensures none { IfNone result (All (λ o. o.name ≢ name.now) self.now.objects) }
    {
        first_named(self.objects.as_slice(), name)
    }
}

fn first_named(objects: &[Object], name: &Name) -> Option<ObjectId>
    ensures { result ≡ id_named name.now objects.now }
{
    objects.iter().find(|o| o.name == *name).map(|o| o.id)
}

#[cfg(test)]
mod tests;
