// Lines: clipping to the bounds, and the walk from dot to dot (src/canvas/line.rs of
// ratatui-widgets). Every function is total; its contract says that the result equals a definition
// in specs/.
#![tactic(auto)]

pub mod bresenham; // bresenham.rt: the walk along a line, dot by dot
pub mod clip; // clip.rt: the part of a line inside the bounds
pub mod course; // course.rt: the dots of a walk by fixed point
pub mod route; // route.rt: what both ways from dot to dot have in common, and their dots as an iterator
