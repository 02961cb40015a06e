// The form of a picture file's bytes: its fields, the sizes of its records, and what a record is refused
// on before its call. Every public function is total; its contract equals a definition in specs/, that of
// has and of the methods of Fields for a bit's weight above 0 and a place whose field ends below 2^64.
#![tactic(auto)]

pub mod fields; // fields.rt: numbers and floats in a part of the file
pub mod kind; // kind.rt: the kinds of records
pub mod sizes; // sizes.rt: the bytes of a record's fields, and its form
