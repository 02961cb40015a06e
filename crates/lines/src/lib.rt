// Dots, lines and filled lines painted for a painter (Painter::paint of src/canvas.rs and
// src/canvas/line.rs in ratatui-widgets). Every public function is total; its contract says that the
// answer, and the store after it, equal a definition in specs/.
// Functions and no methods of Painter: those of crate shapes can be none, and all are to read alike.
#![tactic(auto)]

pub mod fills; // fills.rt: a column of dots, and a line filled to a row
mod held; // held.rt: the dots of a line whose cells the store has
pub mod painter; // painter.rt: where a draw paints, and one dot
pub mod walks; // walks.rt: the walk between two ends, painted
