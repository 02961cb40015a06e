// What a canvas and the numbers of its calls are refused on (document 01, 'Calls and refusals, in
// order'). Every public function is total; its contract equals a definition of crate ledger.
#![tactic(auto)]

pub mod state; // state.rt: sizes, bounds, colours, points, shapes, and the state of a canvas
