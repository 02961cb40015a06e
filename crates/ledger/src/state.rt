// A canvas, and what it is opened with.
ghost use Rattle.std.specs.Prelude.{◌≡◌};
ghost use Rattle.ledger.specs.Model.{grid_of, opened_canvas};

use crate::screen::Area;
use grids::markers::Marker;
use grids::painting::Grid;
use walk::clip::Bounds;

// The arguments of an opening. The marker is a number, since document 01 refuses one that is no marker with 4.
#[derive(Clone, Copy)]
pub struct Opening {
    pub columns: u16,
    pub rows: u16,
    pub bounds: Bounds,
    pub marker: u8,
    pub character: u32,
    pub background: u32,
}

// A canvas: the opening's bounds, size and background; the marker and character of the grid being
// drawn; whether that grid is dirty, and whether the canvas was rendered; labels held, draws and
// dots accepted, and dots painted. The wider fields stand first, so that no gap lies between them: a
// call copies the canvas, and its gaps would be copied byte by byte. The marker is a number and the marks are
// two flags, since a canvas is lent as words, in which any number may stand; document 01 refuses those with 5.
#[derive(Clone, Copy)]
pub struct Canvas {
    pub bounds: Bounds,
    pub painted: u64,
    pub character: u32,
    pub background: u32,
    pub labels: u32,
    pub draws: u32,
    pub columns: u16,
    pub rows: u16,
    pub marker: u8,
    pub dirty: bool,
    pub rendered: bool,
}

impl Canvas {
    // The canvas as it was opened.
    pub fn opened(opening: Opening) -> Canvas
        ensures { result ≡ opened_canvas opening }
    {
        Canvas {
            columns: opening.columns,
            rows: opening.rows,
            bounds: opening.bounds,
            marker: opening.marker,
            character: opening.character,
            background: opening.background,
            dirty: false,
            rendered: false,
            labels: 0,
            draws: 0,
            painted: 0,
        }
    }

    // The grid that is being drawn.
    pub fn grid(self) -> Grid
        ensures { result ≡ grid_of self }
    {
        Grid {
            columns: self.columns,
            rows: self.rows,
            marker: Marker::from(self.marker),
        }
    }

    // A screen of the canvas' own size.
    pub fn area(self) -> Area
        ensures { result ≡ record { columns = self.columns; rows = self.rows; x = 0; y = 0 } }
    {
        Area {
            columns: self.columns,
            rows: self.rows,
            x: 0,
            y: 0,
        }
    }
}
