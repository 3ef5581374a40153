//! The records of a scene whose operations are numbered.
ghost use Rattle.std.specs.Prelude.{◌≡◌, ◌<◌, ◌^◌, length, slice_get, Some, IsTrue};
ghost use Rattle.rig_scene.specs.WellFormed.{is_scene};

use crate::numbered::NumberedScene;
use rig_scene::{ArmatureData, Driver, Object, PencilData};

impl<'a> NumberedScene<'a> {
    /// The drivers of the scene.
    pub(crate) fn drivers(&self) -> &[Driver]
        ensures drivers { result.now ≡ self.now.drivers }
        ensures scene { IsTrue (is_scene self.now) }
    {
        self.drivers
    }

    /// The pencils of the scene.
    pub(crate) fn pencils(&self) -> &[PencilData]
        ensures pencils { result.now ≡ self.now.pencils }
        ensures scene { IsTrue (is_scene self.now) }
    {
        let scene = self.scene;
        scene.pencils.as_slice()
    }

    /// The objects of the scene.
    pub(crate) fn objects(&self) -> &[Object]
        ensures objects { result.now ≡ self.now.objects }
        ensures scene { IsTrue (is_scene self.now) }
    {
        let scene = self.scene;
        scene.objects.as_slice()
    }

    /// The armature of an index.
    pub(crate) fn armature(&self, index: u32) -> &ArmatureData
        requires { index < length self.now.armatures }
        ensures armature { slice_get self.now.armatures index ≡ Some result.now }
        ensures few { length result.now.bones < 2 ^ 32 }
    {
        let scene = self.scene;
        scene.armatures.get(index as usize)
    }

    /// The pencil of an index.
    pub(crate) fn pencil(&self, index: u32) -> &PencilData
        requires { index < length self.now.pencils }
        ensures pencil { slice_get self.now.pencils index ≡ Some result.now }
        ensures few { length result.now.layers < 2 ^ 32 }
    {
        let scene = self.scene;
        scene.pencils.get(index as usize)
    }
}
