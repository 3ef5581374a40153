//! The limits of a scene, of a script and of a run. Specs, code and proofs cite them from here.

/// The most objects of a scene.
pub const MAX_OBJECTS: usize = 1_024;

/// The most pencil objects of a scene.
pub const MAX_PENCIL_OBJECTS: usize = 64;

/// The most actions of a scene.
pub const MAX_ACTIONS: usize = 2_048;

/// The most curves of all actions together.
pub const MAX_CURVES: usize = 16_384;

/// The most keys of all curves together.
pub const MAX_KEYS: usize = 65_536;

/// The most armatures of a scene.
pub const MAX_ARMATURES: usize = 1_024;

/// The most bones of one armature.
pub const MAX_BONES: usize = 256;

/// The most bones of all armature objects together.
pub const MAX_POSE_BONES: usize = 16_384;

/// The most pencils of a scene.
pub const MAX_PENCILS: usize = 64;

/// The most layers of one pencil.
pub const MAX_LAYERS: usize = 32;

/// The most keys of all layers together.
pub const MAX_LAYER_KEYS: usize = 16_384;

/// The most drawings of all pencils together.
pub const MAX_DRAWINGS: usize = 16_384;

/// The most points of all drawings together.
pub const MAX_POINTS: usize = 262_144;

/// The most modifiers of one object.
pub const MAX_MODIFIERS: usize = 8;

/// The most copies that an array makes, its input included. The fewest are one.
pub const MAX_ARRAY_COUNT: usize = 64;

/// The most points that the evaluated geometry of one object has.
pub const MAX_RESULT_POINTS: usize = 16_384;

/// The most drivers of a scene.
pub const MAX_DRIVERS: usize = 8_192;

/// The most variables of one driver. The fewest are one.
pub const MAX_VARIABLES: usize = 8;

/// The most tracks of a script.
pub const MAX_TRACKS: usize = 16;

/// The most steps of all tracks together.
pub const MAX_STEPS: usize = 4_096;

/// The most frames of a script that are printed in full.
pub const MAX_FULL_FRAMES: usize = 16;

/// The most workers of an evaluation. The fewest are one.
pub const MAX_WORKERS: usize = 64;

/// The most bytes of a name. The fewest are one.
pub const MAX_NAME_BYTES: usize = 63;

/// The first frame.
pub const MIN_FRAME: i32 = -1_000_000;

/// The last frame.
pub const MAX_FRAME: i32 = 1_000_000;

/// The most bytes of an input.
pub const MAX_INPUT_BYTES: usize = 16_777_216;
