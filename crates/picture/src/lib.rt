// The picture file: its opening, its records one after the other, and a whole file drawn onto a lent
// screen. Every public function is total; its contract says that the answer, the canvas and every lent
// list after it equal a definition in specs/.
#![tactic(auto)]

pub mod opening; // opening.rt: the opening
pub mod run; // run.rt: a whole file
