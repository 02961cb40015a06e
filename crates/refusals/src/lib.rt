// What a call, or a record of a picture file, is refused with.
#![tactic(auto)]

pub mod refusal; // refusal.rt: the refusals, with document 01's numbers
