// The grids of dots: markers and their symbols, the lent store of cells, and painting a dot
// (PatternGrid, CharGrid and HalfBlockGrid of src/canvas.rs in ratatui-widgets). Crates columns and
// layers above it fill columns, and lay a grid over the picture. Every public function is total; its
// contract says that the answer, and the store after it, equal a definition in specs/.
#![tactic(auto)]

pub mod cells; // cells.rt: the store, read and written a cell at a time
pub mod layer; // layer.rt: what a layer sets in a cell
pub mod markers; // markers.rt: which markers there are, and their dots in a cell
pub mod painting; // painting.rt: a dot painted into the grid
pub mod symbols; // symbols.rt: the symbols of patterns, by the Unicode charts
