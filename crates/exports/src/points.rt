// The dot of a point: document 01, 'Get_point (canvas alone, no store): 5; 2.', on a canvas that is lent as
// words and on one given by its numbers. 0: column and row are set; 255: there is none; else the refusal's
// number.
ghost use Rattle.std.specs.Prelude.{◌≡◌};
ghost use Rattle.ledger.specs.PointCall.{pointed_on};
ghost use Rattle.canvas.specs.Results.{found};
ghost use Rattle.words.specs.Words.{canvas_of};
ghost use Rattle.exports.specs.GetPoint.{point_at, point_status, column_after, row_after, IsDot, IsNone};

use canvas::calls::get_point;
use ledger::state::{Canvas, Opening};
use limits::state::RESET;
use refusals::refusal::Refusal;
use walk::clip::Bounds;
use words::load;

// The status, and the dot put into the lent numbers.
fn put_dot(dot: Result<Option<(u16, u16)>, Refusal>, column: &mut u32, row: &mut u32) -> u8
    ensures status { result ≡ point_status (found dot) }
    ensures column { column.new ≡ column_after (found dot) column.old }
    ensures row { row.new ≡ row_after (found dot) row.old }
{
    match dot {
        Ok(Some((across, down))) => {
            *column = u32::from(across);
            *row = u32::from(down);
            0
        }
        Ok(None) => 255,
        Err(refusal) => u8::from(refusal),
    }
}

// By a canvas that is lent as words.
#[unsafe(no_mangle)]
pub extern "C" fn mossbuckle_point(
    canvas: &[u64],
    x: f64,
    y: f64,
    column: &mut u32,
    row: &mut u32,
) -> u8
    ensures value { (result ≡ point_status (pointed_on (canvas_of canvas.now) x y))
        × ((column.new ≡ column_after (pointed_on (canvas_of canvas.now) x y) column.old)
        × (row.new ≡ row_after (pointed_on (canvas_of canvas.now) x y) row.old)) }
    ensures dot { (result ≡ 0 → IsDot (pointed_on (canvas_of canvas.now) x y)) × (result ≡ 255 → IsNone (pointed_on (canvas_of canvas.now) x y)) }
{
    let c = load(canvas);
    put_dot(get_point(c, x, y), &mut *column, &mut *row)
}

// By the numbers of a canvas.
#[unsafe(no_mangle)]
pub extern "C" fn mossbuckle_get_point(
    columns: u16,
    rows: u16,
    left: f64,
    right: f64,
    bottom: f64,
    top: f64,
    marker: u8,
    x: f64,
    y: f64,
    column: &mut u32,
    row: &mut u32,
) -> u8
    ensures value { (result ≡ point_status (point_at columns rows left right bottom top marker x y))
        × ((column.new ≡ column_after (point_at columns rows left right bottom top marker x y) column.old)
        × (row.new ≡ row_after (point_at columns rows left right bottom top marker x y) row.old)) }
    ensures dot { (result ≡ 0 → IsDot (point_at columns rows left right bottom top marker x y)) × (result ≡ 255 → IsNone (point_at columns rows left right bottom top marker x y)) }
{
    let canvas = Canvas::opened(Opening {
        columns,
        rows,
        bounds: Bounds {
            left,
            right,
            bottom,
            top,
        },
        marker,
        character: 32,
        background: RESET,
    });
    put_dot(get_point(canvas, x, y), &mut *column, &mut *row)
}
