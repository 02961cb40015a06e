// From bounds to dots: get_point's formula, and a label's place (Painter::get_point and Canvas::render of
// src/canvas.rs in ratatui-widgets). Every public function is total. Its contract says that the answer
// equals a definition in specs/; of view_of, spot_inside and dot_inside it says so on a condition that
// their callers know to hold.
#![tactic(auto)]

pub mod point; // point.rt: from bounds to a dot, and to a label's place
