// A screen as bytes: the listing and the refusal that the program prints, and the screen as a
// terminal shows it. Every public function is total; its contract says that the lent bytes after
// it, and the number of bytes, equal a definition in specs/. Bytes past the end are dropped, and the
// number counts them too.
#![tactic(auto)]

pub mod listing; // listing.rt: the listing and the refusal of document 01
mod numbers; // numbers.rt: decimal and hexadecimal numbers
pub mod screen; // screen.rt: a screen's size and words
pub mod terminal; // terminal.rt: the screen with a terminal's colours
mod utf8; // utf8.rt: a symbol in UTF-8
mod writer; // writer.rt: bytes put one after the other
