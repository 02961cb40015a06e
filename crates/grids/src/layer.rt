// What a layer sets in a cell: a word of 0 sets nothing, and value + 1 sets a value, as in the store.
// Crate layers works it out.

// What a layer sets in a cell. As an Option each word would be coded again where it is laid.
#[derive(Clone, Copy, Default)]
pub struct LayerCell {
    pub symbol: u32,
    pub foreground: u32,
    pub background: u32,
}
