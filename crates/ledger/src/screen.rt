// The screen that a canvas is rendered on.

// A screen's size in cells, and the corner of the canvas' area on it.
#[derive(Clone, Copy)]
pub struct Area {
    pub columns: u16,
    pub rows: u16,
    pub x: u16,
    pub y: u16,
}

// A cell of the screen: plain values. Apart from LayerCell: there a word of 0 sets nothing.
#[derive(Clone, Copy)]
pub struct ScreenCell {
    pub symbol: u32,
    pub foreground: u32,
    pub background: u32,
}
