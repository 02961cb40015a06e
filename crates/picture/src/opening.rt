// The opening of a picture file: size, bit map, and the fields whose bit stands.
// Canvas, cells and labels stand side by side, as in crate canvas.
ghost use Rattle.std.specs.Prelude.{◌≡◌};
ghost use Rattle.form.specs.Fields.{size_by};
ghost use Rattle.form.specs.Forms.{opening_widths};
ghost use Rattle.picture.specs.Opening.{opening_from};
ghost use Rattle.picture.specs.Results.{taken_in};
ghost use Rattle.picture.specs.Run.{opened_state, opening_taken};

use canvas::calls::open;
use form::fields::{FieldValue, Fields, Part};
use ledger::state::{Canvas, Opening};
use limits::state::RESET;
use refusals::refusal::Refusal;
use walk::clip::Bounds;

// The largest canvas that a caller takes. Of 16 bits, as a file has them.
#[derive(Clone, Copy)]
pub struct Largest {
    pub columns: u16,
    pub rows: u16,
}

// An opening of this size with the fields of a file, and how many bytes these take.
fn opening_fields(columns: u16, rows: u16, part: Part<'_>) -> (Opening, usize)
    ensures { result ≡ (opening_from columns rows part.entry.map part.entry.bytes.now, size_by part.entry.map opening_widths) }
{
    let mut fields = Fields::new(part);
    let bounds = Bounds {
        left: fields.real(),
        right: fields.real(),
        bottom: fields.real(),
        top: fields.real(),
    };
    let opening = Opening {
        columns,
        rows,
        bounds,
        marker: fields.next(1),
        character: fields.next(32),
        background: fields.next(RESET),
    };
    (opening, fields.at)
}

// The canvas that a file opens, and where its first record begins. A larger one than the largest is refused
// with 1, in the place of the opening's own 1.
pub fn open_picture(
    file: &[u8],
    largest: Largest,
    cells: &mut [u32],
    labels: &[u32],
) -> Result<(Canvas, usize), Refusal>
    ensures taken { taken_in result ≡ opening_taken file.now largest.columns largest.rows cells.old labels.now }
    ensures cells { cells.new ≡ (opened_state file.now largest.columns largest.rows cells.old labels.now).cells }
{
    if file.len() > 65536 {
        return Err(Refusal::Length);
    }
    if file.len() < 5 {
        return Err(Refusal::Cut);
    }
    let part = Part {
        map: file[4],
        bytes: &file[5..],
    };
    if part.map >= 128 {
        return Err(Refusal::Map);
    }
    let columns = u16::read(file, 0);
    let rows = u16::read(file, 2);
    let (opening, end) = opening_fields(columns, rows, part);
    if part.bytes.len() < end {
        return Err(Refusal::Cut);
    }
    if (columns > largest.columns) | (rows > largest.rows) {
        return Err(Refusal::Size);
    }
    let canvas = open(opening, &mut *cells, labels)?;
    Ok((canvas, 5 + end))
}
