// The shapes painted dot by dot (src/canvas/line.rs, rectangle.rs, circle.rs and points.rs in
// ratatui-widgets). Every public function is total; its contract says that the answer, and the store
// after it, equal a definition in specs/.
#![tactic(auto)]

pub mod painters; // painters.rt: the shapes, painted
