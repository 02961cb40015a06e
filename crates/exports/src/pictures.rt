// A picture file drawn onto a lent screen, and a screen as bytes.
ghost use Rattle.std.specs.Prelude.{◌≡◌, length};
ghost use Rattle.text.specs.Bytes.{laid};
ghost use Rattle.text.specs.Screen.{cells_of};
ghost use Rattle.text.specs.Listing.{listing, refusal_line};
ghost use Rattle.text.specs.Terminal.{terminal};
ghost use Rattle.report.specs.Screen.{blank_screen, columns_of, rows_of};
ghost use Rattle.exports.specs.Draw.{picture_onto, screen_after, draw_status, painted_after, label_cells_after, place_after, IsShown};

use form::fields::FieldValue;
use picture::opening::Largest;
use picture::run::draw_picture;
use report::screen::{blank_screen, picture_size};
use text::listing::{write_listing, write_refusal};
use text::screen::Screen;
use text::terminal::write_terminal;

// The picture's columns and rows, as the file has them; 0 where it ends before.
#[unsafe(no_mangle)]
pub extern "C" fn mossbuckle_size(file: &[u8], columns: &mut u16, rows: &mut u16)
    ensures { (columns.new ≡ columns_of file.now) × (rows.new ≡ rows_of file.now) }
{
    *columns = u16::read(file, 0);
    *rows = u16::read(file, 2);
}

// Every whole cell becomes blank; the words left over stay as they are.
#[unsafe(no_mangle)]
pub extern "C" fn mossbuckle_blank(screen: &mut [u32])
    ensures { screen.new ≡ blank_screen screen.old }
{
    blank_screen(&mut *screen);
}

// A picture file drawn onto a screen. 0: painted and label_cells are set; else the refusal's number:
// place is set, and the screen is as it was.
#[unsafe(no_mangle)]
pub extern "C" fn mossbuckle_draw(
    file: &[u8],
    widest: u16,
    highest: u16,
    cells: &mut [u32],
    labels: &mut [u32],
    screen: &mut [u32],
    painted: &mut u64,
    label_cells: &mut u32,
    place: &mut usize,
) -> u8
    ensures value { (result ≡ draw_status (picture_onto file.now widest highest cells.old labels.old screen.old).drawn)
        × ((painted.new ≡ painted_after (picture_onto file.now widest highest cells.old labels.old screen.old).drawn painted.old)
        × ((label_cells.new ≡ label_cells_after (picture_onto file.now widest highest cells.old labels.old screen.old).drawn label_cells.old)
        × (place.new ≡ place_after (picture_onto file.now widest highest cells.old labels.old screen.old).drawn place.old))) }
    ensures cells_after { (cells.new ≡ (picture_onto file.now widest highest cells.old labels.old screen.old).state.cells)
        × ((labels.new ≡ (picture_onto file.now widest highest cells.old labels.old screen.old).state.labels)
        × (screen.new ≡ screen_after file.now widest highest cells.old labels.old screen.old)) }
    ensures shown { (result ≡ 0 → IsShown (picture_onto file.now widest highest cells.old labels.old screen.old).drawn) × ((result ≡ 0 → ⊥) → screen.new ≡ screen.old) }
{
    let largest = Largest {
        columns: widest,
        rows: highest,
    };
    let n = picture_size(file, largest).min(screen.len());
    let drawn = draw_picture(file, largest, &mut *cells, &mut *labels, &mut screen[..n]);
    match drawn {
        Ok(rendered) => {
            *painted = rendered.painted;
            *label_cells = rendered.label_cells;
            0
        }
        Err(fault) => {
            *place = fault.place;
            u8::from(fault.refusal)
        }
    }
}

// The listing of a screen. Returns how many bytes it has, also those past the end of out, which are
// dropped.
#[unsafe(no_mangle)]
pub extern "C" fn mossbuckle_listing(
    columns: u16,
    rows: u16,
    painted: u64,
    screen: &[u32],
    out: &mut [u8],
) -> usize
    ensures { (out.new ≡ laid out.old 0 (listing columns rows painted (cells_of screen.now)))
        × (result ≡ length (listing columns rows painted (cells_of screen.now))) }
{
    let shown = Screen {
        columns,
        rows,
        words: screen,
    };
    write_listing(shown, painted, &mut *out)
}

// The line of a refusal. Returns as mossbuckle_listing does.
#[unsafe(no_mangle)]
pub extern "C" fn mossbuckle_refusal(number: u8, place: usize, out: &mut [u8]) -> usize
    ensures { (out.new ≡ laid out.old 0 (refusal_line number place))
        × (result ≡ length (refusal_line number place)) }
{
    write_refusal(number, place, &mut *out)
}

// A screen as a terminal shows it. Returns as mossbuckle_listing does.
#[unsafe(no_mangle)]
pub extern "C" fn mossbuckle_terminal(
    columns: u16,
    rows: u16,
    screen: &[u32],
    out: &mut [u8],
) -> usize
    ensures { (out.new ≡ laid out.old 0 (terminal columns rows (cells_of screen.now)))
        × (result ≡ length (terminal columns rows (cells_of screen.now))) }
{
    let shown = Screen {
        columns,
        rows,
        words: screen,
    };
    write_terminal(shown, &mut *out)
}
