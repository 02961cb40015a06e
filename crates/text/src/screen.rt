// A screen.
ghost use Rattle.std.specs.Prelude.{◌≡◌, get_or};

// A screen's size in cells, and their words, three a cell: symbol, foreground and background.
#[derive(Clone, Copy)]
pub struct Screen<'a> {
    pub columns: u16,
    pub rows: u16,
    pub words: &'a [u32],
}

impl Screen<'_> {
    // The word i; 0 past the end.
    pub(crate) fn word(self, i: usize) -> u32
        ensures { result ≡ get_or self.entry.words.now i 0 }
    {
        self.words.get(i).copied().unwrap_or(0)
    }
}
