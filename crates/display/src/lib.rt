// The label store, and the picture and its labels laid on a screen (Canvas::render of src/canvas.rs in
// ratatui-widgets). Every public function is total; its contract equals a definition of crate ledger, that
// of choice_word, put_label, lay, write_label and write_labels on a condition that the calls have tested.
#![tactic(auto)]

pub mod labels; // labels.rt: the label store
pub mod laying; // laying.rt: the picture and the labels laid on the screen
