//! The drawing that a layer of a pencil holds at a frame, and the strokes that it shows of it (Blender Manual, Grease
//! Pencil, Layers).
//!
//! # Examples
//!
//! A layer with the keys (frame 5, drawing 0) and (frame 10, drawing 1), and a drawing of one point (1, 2, 3), in
//! millionths:
//!
//! ```text
//! held(&layer, 4)    None
//! held(&layer, 9)    Some(0)
//! held(&layer, 10)   Some(1)
//! layer_strokes(alloc, Some(&drawing), (10, 20, 30), None)            one stroke of (11, 22, 33)
//! layer_strokes(alloc, Some(&drawing), (0, 0, 0), Some(&half_on_x))   one stroke of (500_001, 2, 3)
//! layer_strokes(alloc, None, (10, 20, 30), None)                      no strokes
//! ```
//!
//! # Rules
//!
//! - A layer holds the drawing of its last key at or before the frame, and none before its first key.
//! - Each point of the drawing has the layer's offset added, and is clamped to the limits. Where the layer is bound to a
//!   bone, the point is then carried by the bone's deform.
//! - Strokes and points keep their order.
//! - Want of memory is the only error of [`layer_strokes`], and it never comes without a drawing. [`held`] allocates
//!   nothing.
//!
//! Whether a layer is hidden, and how layers are joined, is decided elsewhere.
#![tactic(auto)]

mod keys;
mod layer;

pub use keys::held;
pub use layer::layer_strokes;

#[cfg(test)]
mod tests;
