// A whole picture file: opening, records, and a render on a lent screen.
// Canvas, cells and labels stand side by side, as in crate canvas.
ghost use Rattle.std.specs.Prelude.{◌≡◌};
ghost use Rattle.ledger.specs.Outcomes.{given};
ghost use Rattle.picture.specs.Results.{stop_in, drawn_in};
ghost use Rattle.picture.specs.Run.{records_from, ran_by, finished, picture_of};

use crate::opening::{Largest, open_picture};
use canvas::calls::{Rendered, render};
use ledger::state::Canvas;
use records::steps::take_record;
use refusals::refusal::Refusal;

// What a file is refused with, and the place of the record's first byte: 0 for the opening, the file's
// end for the render.
#[derive(Clone, Copy, PartialEq, Eq, Debug)]
pub struct Fault {
    pub refusal: Refusal,
    pub place: usize,
}

// The records from a place on, one after the other, to the end of the file or the first refused. No range or
// iterator serves: each record says where the next one starts.
pub fn take_records(
    file: &[u8],
    start: usize,
    canvas: &mut Canvas,
    cells: &mut [u32],
    labels: &mut [u32],
) -> Result<(), Fault>
    ensures stop { stop_in result ≡ (ran_by (records_from file.now start (given canvas.old cells.old labels.old))).stop }
    ensures state { given canvas.new cells.new labels.new ≡ (records_from file.now start (given canvas.old cells.old labels.old)).state }
{
    let mut at = start;
    while at < file.len() {
        match take_record(file, at, &mut *canvas, &mut *cells, &mut *labels) {
            Ok(next) => at = next,
            Err(refusal) => return Err(Fault { refusal, place: at }),
        }
    }
    Ok(())
}

// The render that ends a file: the screen has the canvas' size.
fn finish(
    canvas: &mut Canvas,
    cells: &mut [u32],
    labels: &[u32],
    screen: &mut [u32],
    place: usize,
) -> Result<Rendered, Fault>
    ensures drawn { drawn_in result ≡ (finished (given canvas.old cells.old labels.now) place screen.old).drawn }
    ensures cells { cells.new ≡ (finished (given canvas.old cells.old labels.now) place screen.old).state.cells }
    ensures screen { screen.new ≡ (finished (given canvas.old cells.old labels.now) place screen.old).screen }
{
    let area = canvas.area();
    match render(canvas, &mut *cells, labels, area, &mut *screen) {
        Ok(rendered) => Ok(rendered),
        Err(refusal) => Err(Fault { refusal, place }),
    }
}

// A whole file drawn onto a screen of its canvas' size. A larger canvas than the largest is refused with 1.
pub fn draw_picture(
    file: &[u8],
    largest: Largest,
    cells: &mut [u32],
    labels: &mut [u32],
    screen: &mut [u32],
) -> Result<Rendered, Fault>
    ensures drawn { drawn_in result ≡ (picture_of file.now largest.columns largest.rows cells.old labels.old screen.old).drawn }
    ensures cells { cells.new ≡ (picture_of file.now largest.columns largest.rows cells.old labels.old screen.old).state.cells }
    ensures labels { labels.new ≡ (picture_of file.now largest.columns largest.rows cells.old labels.old screen.old).state.labels }
    ensures screen { screen.new ≡ (picture_of file.now largest.columns largest.rows cells.old labels.old screen.old).screen }
{
    match open_picture(file, largest, &mut *cells, &*labels) {
        Err(refusal) => Err(Fault { refusal, place: 0 }),
        Ok((mut canvas, start)) => {
            take_records(file, start, &mut canvas, &mut *cells, &mut *labels)?;
            finish(&mut canvas, &mut *cells, &*labels, &mut *screen, file.len())
        }
    }
}
