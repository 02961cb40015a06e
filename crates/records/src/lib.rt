// One record of a picture file, as a call on the canvas. Every public function is total; its contract says
// that the answer, the canvas and every lent list after it equal a definition in specs/.
#![tactic(auto)]

pub mod calls; // calls.rt: the calls of records
pub mod complete; // complete.rt: those that have all their fields
pub mod steps; // steps.rt: a record's form and call, and the step that it makes in the file
