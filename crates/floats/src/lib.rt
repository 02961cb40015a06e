// The float operations of the canvas: Rust's casts and f64 methods, polyfills.rs, and the test of
// the domain. Every function is total; its contract says that the result equals, bit by bit, a
// definition in specs/ with the same operations in the order of the Rust.
#![tactic(auto)]

pub mod casts; // casts.rt: `as` from a float to an integer and back
pub mod domain; // domain.rt: which numbers the canvas takes
pub mod methods; // methods.rt: abs, clamp and to_radians of f64
pub mod polyfills; // polyfills.rt: mul_add, round, floor, sin and cos
