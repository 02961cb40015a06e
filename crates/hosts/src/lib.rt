// The calls for C and Rust, on a canvas that is lent as words: bindings/ has the C header and the Rust
// wrapper. Every function is total; its contract says that its answer and all that was lent equal a
// definition. A slice goes over as a pointer and a length; a marker and a refusal are numbers, and the numbers of
// a call stand one by one, since C has neither our enums nor our structs.
#![tactic(auto)]

pub mod calls; // calls.rt: the calls
