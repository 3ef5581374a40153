//! Links of drivers: what their variables read.
ghost use Rattle.std.specs.Prelude.{◌≡◌, ◌<◌, ◌++◌, [], ◌∷◌, length, Some, OnOk, if◌then◌else◌};
ghost use Rattle.std.specs.List.{All, flat_map};
ghost use Rattle.rig_nodes.specs.DriverRows.{drivers_at};
ghost use Rattle.rig_scene.specs.declared.operation.OpId.TheVariants.{Animation, Driver as DriverOp};
ghost use Rattle.rig_scene.specs.Drivers.{driver_of, is_driven};
ghost use Rattle.rig_scene.specs.Operations.{operation_of};
ghost use Rattle.rig_scene.specs.Quantities.{space_quantity};
ghost use Rattle.rig_links.specs.Numbers.{numbered_links};
ghost use Rattle.rig_links.specs.Parts.{reference, if_there, of_variable};

use crate::numbered::NumberedScene;
use rig_cut::Link;
use rig_io::NoMemory;
use rig_scene::{AnimId, Driver, ObjectId, OpId, Path, Space, Variable};

/// Adds the links of the drivers at the indices of a row.
pub(crate) fn push_drivers(
    links: &mut Vec<Link>,
    scene: &NumberedScene,
    row: &[u32],
) -> Result<(), NoMemory>
    requires { All (λ i. i < length scene.now.drivers) row.now }
    ensures { OnOk result (links.new.items ≡
        links.old.items ++ flat_map (λ d. numbered_links scene.now (DriverOp d.id d.path)) (drivers_at scene.now.drivers row.now)) }
{
    let drivers = scene.drivers();
    for index in row {
        push_driver(links, scene, &drivers[*index as usize])?;
    }
    Ok(())
}

fn push_driver(
    links: &mut Vec<Link>,
    scene: &NumberedScene,
    driver: &Driver,
) -> Result<(), NoMemory>
    requires { driver_of scene.now driver.now.id driver.now.path ≡ Some driver.now }
    ensures { OnOk result (links.new.items ≡ links.old.items ++ numbered_links scene.now (DriverOp driver.now.id driver.now.path)) }
{
    let reader = scene.number(&OpId::Driver(driver.id, driver.path.copy()?));
    push_variables(links, scene, reader, driver.variables.as_slice())
}

fn push_variables(
    links: &mut Vec<Link>,
    scene: &NumberedScene,
    reader: u32,
    variables: &[Variable],
) -> Result<(), NoMemory>
    ensures { OnOk result (links.new.items ≡ links.old.items ++ flat_map (of_variable scene.now reader) variables.now) }
{
    for variable in variables {
        push_variable(links, scene, reader, variable)?;
    }
    Ok(())
}

fn push_variable(
    links: &mut Vec<Link>,
    scene: &NumberedScene,
    reader: u32,
    variable: &Variable,
) -> Result<(), NoMemory>
    ensures { OnOk result (links.new.items ≡ links.old.items ++ of_variable scene.now reader variable.now) }
{
    match variable {
        Variable::Property { id, path } => push_property(links, scene, reader, *id, path),
        Variable::Transform { object, space, .. } => {
            scene.push(links, reader, true, &transform(*object, *space))
        }
    }
}

// The driver of a driven channel, else the animation of its id.
fn push_property(
    links: &mut Vec<Link>,
    scene: &NumberedScene,
    reader: u32,
    id: AnimId,
    path: &Path,
) -> Result<(), NoMemory>
    ensures { OnOk result (links.new.items ≡ links.old.items ++
        (if is_driven scene.now id path.now then reference scene.now reader (DriverOp id path.now) ∷ []
        else if_there scene.now reader (Animation id))) }
{
    let Some(source) = scene.number_if_there(&OpId::Driver(id, path.copy()?)) else {
        return scene.push_if_there(links, reader, &OpId::Animation(id));
    };
    links.push(Link {
        source,
        reader,
        reference: true,
    })?;
    Ok(())
}

// The operation of the transform that a space names.
fn transform(object: ObjectId, space: Space) -> OpId
    ensures { result ≡ operation_of (space_quantity object space) }
{
    match space {
        Space::World => OpId::World(object),
        Space::Local => OpId::Local(object),
        Space::Pose(bone) => OpId::Bone(object, bone),
    }
}
