//! The number that a driver makes of its variables' numbers (Blender Manual, Drivers).
//!
//! # Example
//!
//! Two variables of -0.000001 and 0.000002, in millionths:
//!
//! ```text
//! combine(DriverKind::Average, &[Fx::of(-1), Fx::of(2)])   1    0.5, rounded to the nearest, a half upward
//! combine(DriverKind::Sum, ..)                             1
//! combine(DriverKind::Min, ..)                             -1
//! combine(DriverKind::Max, ..)                             2
//! ```
//!
//! # Rules
//!
//! - A driver has 1 to 8 variables.
//! - An average is the plain sum over the count, rounded to the nearest millionth, and a half upward, also below 0.
//! - A sum beyond the limits of a number stops at them. The plain sum under an average doesn't.
//! - Nothing allocates or fails.
//!
//! # What it doesn't do
//!
//! No scripted expressions, and no reading of variables: the caller has their numbers.
#![tactic(auto)]

mod driver;

pub use driver::combine;
