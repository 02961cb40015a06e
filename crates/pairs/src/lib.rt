// Points over a lent list of coordinate pairs (src/canvas/points.rs in ratatui-widgets), the one call
// that is not in crate canvas.
#![tactic(auto)]

pub mod points; // points.rt: the list looked through, its points painted, and the call
