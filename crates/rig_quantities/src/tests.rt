//! The quantities of two small scenes, and the reads of each kind of quantity.
ghost use Rattle.std.specs.Prelude.{◌≡◌, ◌∷◌, [], IfOk};
ghost use Rattle.rig_quantities.specs.Example.{rest, object_of_kind, bone, transform, sum_of, empties, arm, sketch, mirror, objects, hand_x, offset_x, hand_driver, centre_driver, drivers};

use super::*;
use rig_fixed::{Fx, Raw, V3};
use rig_io::{List, NoMemory};
use rig_scene::{
    AnimId, ArmatureData, Axis, BoneRef, Channel, Channels, Driver, DriverKind, Effect, Kind,
    Layer, Mirror, Modifier, Name, Object, ObjectId, Parent, Path, PencilData, Quantity, Read,
    RestBone, Scene, Space, Variable,
};
use std::alloc::Global;
use std::test::Fail;

fn rest() -> Channels
    ensures { result ≡ rest }
{
    Channels {
        loc: V3::ZERO,
        rot: Raw {
            w: Fx::ONE,
            x: Fx::ZERO,
            y: Fx::ZERO,
            z: Fx::ZERO,
        },
        scale: Fx::ONE,
    }
}

fn object_of_kind(id: u32, name: Name, parent: Option<Parent>, kind: Kind) -> Object
    ensures { result ≡ object_of_kind id name parent kind }
{
    Object {
        id: ObjectId(id),
        name,
        own: rest(),
        action: None,
        parent,
        kind,
    }
}

fn empties(alloc: Global) -> Result<List<Object>, Fail>
    ensures { IfOk result (λ objects. objects ≡ empties) }
{
    let first = object_of_kind(0, Name::of(alloc, b"A")?, None, Kind::Empty);
    let second = object_of_kind(1, Name::of(alloc, b"B")?, None, Kind::Empty);
    Ok(List::from(vec![in alloc; first, second]?))
}

fn two_empties(alloc: Global) -> Result<Scene, Fail> {
    Ok(Scene {
        actions: List::new(alloc),
        armatures: List::new(alloc),
        pencils: List::new(alloc),
        objects: empties(alloc)?,
        drivers: List::new(alloc),
        next: 2,
        key_count: 0,
        layer_key_count: 0,
    })
}

fn bone(name: Name, parent: Option<u32>) -> RestBone
    ensures { result ≡ bone name parent }
{
    RestBone {
        name,
        parent,
        rest: rest(),
    }
}

fn arms(alloc: Global) -> Result<List<ArmatureData>, Fail>
    ensures { IfOk result (λ armatures. armatures ≡ arm ∷ []) }
{
    let root = bone(Name::of(alloc, b"r")?, None);
    let hand = bone(Name::of(alloc, b"h")?, Some(0));
    let arm = ArmatureData {
        name: Name::of(alloc, b"A")?,
        bones: List::from(vec![in alloc; root, hand]?),
    };
    Ok(List::from(vec![in alloc; arm]?))
}

fn sketches(alloc: Global) -> Result<List<PencilData>, Fail>
    ensures { IfOk result (λ pencils. pencils ≡ sketch ∷ []) }
{
    let layer = Layer {
        name: Name::of(alloc, b"b")?,
        hidden: false,
        offset: V3::ZERO,
        bound: Some(BoneRef {
            object: ObjectId(0),
            bone: 1,
        }),
        keys: List::new(alloc),
    };
    let sketch = PencilData {
        name: Name::of(alloc, b"P")?,
        action: None,
        drawings: List::new(alloc),
        layers: List::from(vec![in alloc; layer]?),
    };
    Ok(List::from(vec![in alloc; sketch]?))
}

fn mirrors(alloc: Global) -> Result<List<Modifier>, Fail>
    ensures { IfOk result (λ modifiers. modifiers ≡ mirror ∷ []) }
{
    let mirror = Modifier {
        name: Name::of(alloc, b"m")?,
        viewport: true,
        render: true,
        effect: Effect::Mirror(Mirror {
            x: true,
            y: false,
            z: false,
            centre: Some(ObjectId(3)),
        }),
    };
    Ok(List::from(vec![in alloc; mirror]?))
}

fn objects(alloc: Global) -> Result<List<Object>, Fail>
    ensures { IfOk result (λ list. list ≡ objects) }
{
    let armature = Kind::Armature {
        armature: 0,
        pose: List::from(vec![in alloc; rest(), rest()]?),
    };
    let pencil = Kind::Pencil {
        pencil: 0,
        modifiers: mirrors(alloc)?,
    };
    let hand = Parent {
        object: ObjectId(0),
        bone: Some(1),
    };
    let body = object_of_kind(0, Name::of(alloc, b"B")?, None, armature);
    let sketch = object_of_kind(1, Name::of(alloc, b"S")?, Some(hand), pencil);
    let centre = object_of_kind(3, Name::of(alloc, b"C")?, None, Kind::Empty);
    Ok(List::from(vec![in alloc; body, sketch, centre]?))
}

fn hand_x(alloc: Global) -> Result<Path, Fail>
    ensures { IfOk result (λ path. path ≡ hand_x) }
{
    Ok(Path::Bone(Name::of(alloc, b"h")?, Channel::LocX))
}

fn offset_x(alloc: Global) -> Result<Path, Fail>
    ensures { IfOk result (λ path. path ≡ offset_x) }
{
    Ok(Path::Layer(Name::of(alloc, b"b")?, Axis::X))
}

fn transform(object: u32, space: Space) -> Variable
    ensures { result ≡ transform object space }
{
    Variable::Transform {
        object: ObjectId(object),
        space,
        channel: Channel::LocX,
    }
}

fn driver(id: AnimId, path: Path, variables: Vec<Variable>) -> Driver
    ensures { result ≡ sum_of id path variables.items }
{
    Driver {
        id,
        path,
        kind: DriverKind::Sum,
        variables: List::from(variables),
    }
}

fn hand_driver(alloc: Global) -> Result<Driver, Fail>
    ensures { IfOk result (λ d. d ≡ hand_driver) }
{
    let offset = Variable::Property {
        id: AnimId::Pencil(0),
        path: offset_x(alloc)?,
    };
    let own = Variable::Property {
        id: AnimId::Object(ObjectId(1)),
        path: Path::Own(Channel::LocX),
    };
    let variables = vec![in alloc; offset, own, transform(3, Space::World)]?;
    Ok(driver(AnimId::Object(ObjectId(0)), hand_x(alloc)?, variables))
}

fn centre_driver(alloc: Global, channel: Channel) -> Result<Driver, Fail>
    ensures { IfOk result (λ d. d ≡ centre_driver channel) }
{
    let variables = vec![in alloc; transform(0, Space::Pose(1))]?;
    Ok(driver(AnimId::Object(ObjectId(3)), Path::Own(channel), variables))
}

fn drivers(alloc: Global) -> Result<List<Driver>, Fail>
    ensures { IfOk result (λ list. list ≡ drivers) }
{
    let scale = centre_driver(alloc, Channel::Scale)?;
    let hand = hand_driver(alloc)?;
    let variables = vec![in alloc; transform(3, Space::Local)]?;
    let offset = driver(AnimId::Pencil(0), offset_x(alloc)?, variables);
    let height = centre_driver(alloc, Channel::LocZ)?;
    Ok(List::from(vec![in alloc; scale, hand, offset, height]?))
}

fn character(alloc: Global) -> Result<Scene, Fail> {
    Ok(Scene {
        actions: List::new(alloc),
        armatures: arms(alloc)?,
        pencils: sketches(alloc)?,
        objects: objects(alloc)?,
        drivers: drivers(alloc)?,
        next: 4,
        key_count: 0,
        layer_key_count: 0,
    })
}

// A quantity in short: its word, the number of its object or pencil, and its own. Of a channel the last number says whether
// it is the object's (0), a bone's (1) or a layer's (2).
type Row = (&'static str, u32, u32);

fn row(q: &Quantity) -> Row {
    match q {
        Quantity::Chan(id, path) => channel_row(number(*id), path),
        Quantity::Local(object) => ("local", object.0, 0),
        Quantity::World(object) => ("world", object.0, 0),
        Quantity::Bone(object, index) => ("bone", object.0, *index),
        Quantity::Layer(pencil, index) => ("layer", *pencil, *index),
        Quantity::Geom(object, index) => ("geometry", object.0, *index),
    }
}

fn channel_row(number: u32, path: &Path) -> Row {
    match path {
        Path::Own(channel) => (channel.word(), number, 0),
        Path::Bone(_, channel) => (channel.word(), number, 1),
        Path::Layer(_, axis) => (axis.word(), number, 2),
    }
}

fn number(id: AnimId) -> u32 {
    match id {
        AnimId::Object(object) => object.0,
        AnimId::Pencil(pencil) => pencil,
    }
}

fn are_rows(list: &[Quantity], expected: &[Row]) -> bool {
    list.len() == expected.len() && list.iter().zip(expected).all(|(q, r)| row(q) == *r)
}

#[test]
fn pencils_come_before_objects(rt: HostRuntime) -> Result<(), Fail> {
    let empties = [
        ("local", 0, 0),
        ("world", 0, 0),
        ("local", 1, 0),
        ("world", 1, 0),
    ];
    let list = quantities(rt.alloc(), &two_empties(rt.alloc())?)?;
    assert!(rt; are_rows(list.as_slice(), &empties));
    let character_rows = [
        ("offset.x", 0, 2),
        ("layer", 0, 0),
        ("loc.x", 0, 1),
        ("local", 0, 0),
        ("world", 0, 0),
        ("bone", 0, 0),
        ("bone", 0, 1),
        ("local", 1, 0),
        ("world", 1, 0),
        ("geometry", 1, 0),
        ("geometry", 1, 1),
        ("scale", 3, 0),
        ("loc.z", 3, 0),
        ("local", 3, 0),
        ("world", 3, 0),
    ];
    let list = quantities(rt.alloc(), &character(rt.alloc())?)?;
    assert!(rt; are_rows(list.as_slice(), &character_rows));
    Ok(())
}

// A read in short: whether it is a reference read, and its source.
type ReadRow = (bool, Row);

// Whether a quantity of the character reads these.
fn are_reads(
    alloc: Global,
    scene: &Scene,
    q: &Quantity,
    expected: &[ReadRow],
) -> Result<bool, NoMemory> {
    let list = reads(alloc, scene, q)?;
    Ok(are_read_rows(list.as_slice(), expected))
}

fn are_read_rows(list: &[Read], expected: &[ReadRow]) -> bool {
    list.len() == expected.len() && list.iter().zip(expected).all(|(r, e)| is_read_row(r, e))
}

fn is_read_row(read: &Read, expected: &ReadRow) -> bool {
    read.reference == expected.0 && row(&read.source) == expected.1
}

// Whether a channel of the character reads these.
fn are_channel_reads(
    alloc: Global,
    scene: &Scene,
    id: AnimId,
    path: Path,
    expected: &[ReadRow],
) -> Result<bool, NoMemory> {
    are_reads(alloc, scene, &Quantity::Chan(id, path), expected)
}

fn are_hand_reads(alloc: Global, scene: &Scene, expected: &[ReadRow]) -> Result<bool, Fail> {
    let body = AnimId::Object(ObjectId(0));
    Ok(are_channel_reads(alloc, scene, body, hand_x(alloc)?, expected)?)
}

fn are_offset_reads(alloc: Global, scene: &Scene, expected: &[ReadRow]) -> Result<bool, Fail> {
    let pencil = AnimId::Pencil(0);
    Ok(are_channel_reads(alloc, scene, pencil, offset_x(alloc)?, expected)?)
}

fn are_centre_reads(
    alloc: Global,
    scene: &Scene,
    channel: Channel,
    expected: &[ReadRow],
) -> Result<bool, NoMemory> {
    let centre = AnimId::Object(ObjectId(3));
    are_channel_reads(alloc, scene, centre, Path::Own(channel), expected)
}

#[test]
fn channels_read_what_their_variables_name(rt: HostRuntime) -> Result<(), Fail> {
    let alloc = rt.alloc();
    let scene = character(alloc)?;
    let hand = [(true, ("offset.x", 0, 2)), (true, ("world", 3, 0))];
    assert!(rt; are_hand_reads(alloc, &scene, &hand)?);
    assert!(rt; are_offset_reads(alloc, &scene, &[(true, ("local", 3, 0))])?);
    Ok(())
}

#[test]
fn only_driven_channels_read(rt: HostRuntime) -> Result<(), Fail> {
    let alloc = rt.alloc();
    let scene = character(alloc)?;
    assert!(rt; are_centre_reads(alloc, &scene, Channel::LocZ, &[(true, ("bone", 0, 1))])?);
    assert!(rt; are_centre_reads(alloc, &scene, Channel::LocX, &[])?);
    Ok(())
}

#[test]
fn transforms_read_their_driven_channels_in_order(rt: HostRuntime) -> Result<(), Fail> {
    let alloc = rt.alloc();
    let scene = character(alloc)?;
    let local = [(false, ("loc.z", 3, 0)), (false, ("scale", 3, 0))];
    assert!(rt; are_reads(alloc, &scene, &Quantity::Local(ObjectId(3)), &local)?);
    let hand = [(false, ("loc.x", 0, 1)), (false, ("bone", 0, 0))];
    assert!(rt; are_reads(alloc, &scene, &Quantity::Bone(ObjectId(0), 1), &hand)?);
    Ok(())
}

#[test]
fn objects_read_what_carries_them(rt: HostRuntime) -> Result<(), Fail> {
    let alloc = rt.alloc();
    let scene = character(alloc)?;
    let free = [(false, ("local", 3, 0))];
    assert!(rt; are_reads(alloc, &scene, &Quantity::World(ObjectId(3)), &free)?);
    let carried = [
        (false, ("local", 1, 0)),
        (true, ("world", 0, 0)),
        (true, ("bone", 0, 1)),
    ];
    assert!(rt; are_reads(alloc, &scene, &Quantity::World(ObjectId(1)), &carried)?);
    Ok(())
}

#[test]
fn strokes_read_layers_and_layers_their_bone(rt: HostRuntime) -> Result<(), Fail> {
    let alloc = rt.alloc();
    let scene = character(alloc)?;
    let bound = [(false, ("offset.x", 0, 2)), (true, ("bone", 0, 1))];
    assert!(rt; are_reads(alloc, &scene, &Quantity::Layer(0, 0), &bound)?);
    let strokes = [(false, ("layer", 0, 0))];
    assert!(rt; are_reads(alloc, &scene, &Quantity::Geom(ObjectId(1), 0), &strokes)?);
    Ok(())
}

#[test]
fn a_mirror_reads_its_object_and_its_centre(rt: HostRuntime) -> Result<(), Fail> {
    let alloc = rt.alloc();
    let scene = character(alloc)?;
    let mirrored = [
        (false, ("geometry", 1, 0)),
        (false, ("world", 1, 0)),
        (true, ("world", 3, 0)),
    ];
    assert!(rt; are_reads(alloc, &scene, &Quantity::Geom(ObjectId(1), 1), &mirrored)?);
    Ok(())
}
