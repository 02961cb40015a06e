// What the calls are to do: their definitions and document 01's ledger in specs/, and the proof of the
// promise over every list of calls. The code of the calls is in crate canvas; here are the structs that
// the definitions speak of.
#![tactic(auto)]

pub mod screen; // screen.rt: the screen's area and cells
pub mod state; // state.rt: the canvas
