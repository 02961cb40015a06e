// The calls on a canvas: bounds, shapes, layers and labels (Context, Painter::get_point and
// Canvas::render of src/canvas.rs in ratatui-widgets). Every public function is total. A call's contract
// says that the answer, the canvas and every lent list after it equal a definition of crate ledger; those
// of draw_refusal, points_refusal, painter_for and count_draw, parts of a call for the crates above, say
// so on a condition.
#![tactic(auto)]

pub mod calls; // calls.rt: open, draw, dot, layer, marker, print, render, get_point
