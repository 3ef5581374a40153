//! Tests of the crates that read scenes and edit them, on whole scenes in JSON.
//!
//! This crate has no functions of its own. A test build proves the crate that it stands in once more, so the tests of
//! `rig_scenejson` and `rig_edits`, which call these crates through their public functions alone, stand here: a change of a crate
//! above those two doesn't run them again.
#![tactic(auto)]

#[cfg(test)]
mod tests;
