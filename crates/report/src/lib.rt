// What a picture file prints, as bytes: the listing of its screen, the same screen for a terminal, or
// its refusal. Every public function is total; its contract says that what it leaves equals a
// definition in specs/.
#![tactic(auto)]

pub mod program; // program.rt: what the programs print, by a file's bytes alone
pub mod screen; // screen.rt: a blank screen of the picture's size
