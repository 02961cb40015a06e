// The programs `layout` and `show` but for their reading and writing: a file's bytes in, what is printed
// out. The limits, the stores and the screen are theirs.
ghost use Rattle.std.specs.Prelude.{◌≡◌, ℕ, ◌++◌, ◌≤◌, List, length, take, drop};
ghost use Rattle.text.specs.Bytes.{laid};
ghost use Rattle.text.specs.Screen.{Cells, cells_of};
ghost use Rattle.text.specs.Listing.{listing};
ghost use Rattle.text.specs.Terminal.{terminal};
ghost use Rattle.report.specs.Printing.{on_blank, printed_of};
ghost use Rattle.report.specs.Program.{printed_in, layout_prints, show_prints};

use crate::screen::{blank_screen, picture_size};
use form::fields::FieldValue;
use picture::opening::Largest;
use picture::run::draw_picture;
use text::listing::{write_listing, write_refusal};
use text::screen::Screen;
use text::terminal::write_terminal;

// The largest canvas; the stores for it, five words a cell and 44 for each of 64 labels; and its screen, three
// words a cell.
const LARGEST: Largest = Largest {
    columns: 80,
    rows: 24,
};

const CELL_STORE: usize = 9600;

const LABEL_STORE: usize = 2816;

const SCREEN: usize = 5760;

// What is printed of a picture that was drawn.
trait Output {
    ghost text: { ℕ → ℕ → ℕ → Cells → List ℕ };

    fn write(screen: Screen<'_>, painted: u64, out: &mut [u8]) -> usize
        ensures { (out.new ≡ laid out.old 0 (text screen.entry.columns screen.entry.rows painted (cells_of screen.entry.words.now))) × (result ≡ length (text screen.entry.columns screen.entry.rows painted (cells_of screen.entry.words.now))) };
}

struct Layout;

impl Output for Layout {
    ghost text = { listing };

    fn write(screen: Screen<'_>, painted: u64, out: &mut [u8]) -> usize {
        write_listing(screen, painted, out)
    }
}

struct Show;

impl Output for Show {
    ghost text = { λ columns rows painted cells. terminal columns rows cells };

    fn write(screen: Screen<'_>, _painted: u64, out: &mut [u8]) -> usize {
        write_terminal(screen, out)
    }
}

// What is printed of a picture on a screen of its size, which is blanked first, or its refusal. Returns
// how many bytes it has, also those past the end of out.
fn print_on<P: Output>(
    file: &[u8],
    largest: Largest,
    cells: &mut [u32],
    labels: &mut [u32],
    screen: &mut [u32],
    out: &mut [u8],
) -> usize
    ensures { (out.new ≡ laid out.old 0 (printed_of P.text file.now (on_blank file.now largest.columns largest.rows cells.old labels.old screen.old)))
        × (result ≡ length (printed_of P.text file.now (on_blank file.now largest.columns largest.rows cells.old labels.old screen.old))) }
{
    blank_screen(&mut *screen);
    match draw_picture(file, largest, &mut *cells, &mut *labels, &mut *screen) {
        Ok(rendered) => {
            let shown = Screen {
                columns: u16::read(file, 0),
                rows: u16::read(file, 2),
                words: &*screen,
            };
            P::write(shown, rendered.painted, &mut *out)
        }
        Err(fault) => write_refusal(u8::from(fault.refusal), fault.place, &mut *out),
    }
}

// The same within the programs' limits, with stores and a screen of its own.
fn print<P: Output>(file: &[u8], out: &mut [u8]) -> usize
    ensures { (out.new ≡ laid out.old 0 (printed_in P.text file.now)) × (result ≡ length (printed_in P.text file.now)) }
{
    let mut cells = [0u32; CELL_STORE];
    let mut labels = [0u32; LABEL_STORE];
    let mut screen = [0u32; SCREEN];
    let n = picture_size(file, LARGEST);
    print_on::<P>(
        file,
        LARGEST,
        &mut cells,
        &mut labels,
        &mut screen[..n],
        &mut *out,
    )
}

// What `layout` prints for a file, from the start of out; what stood past it stays. Returns how many
// bytes it has. The last two facts let a caller lend them, `&out[..n]`.
// A count and no slice: the clause also says what stays in out past the text. Two functions by the lengths of their
// arrays; both are print.
pub fn print_layout(file: &[u8], out: &mut [u8; 65536]) -> usize
    ensures out_after { (out.new ≡ layout_prints file.now ++ drop result out.old) × (result ≡ length (layout_prints file.now)) }
    ensures upper_bound { (result ≤ length out.new) × (result ≡ length (take result out.new)) }
{
    print::<Layout>(file, &mut out[..])
}

// What `show` prints, in the same way.
pub fn print_show(file: &[u8], out: &mut [u8; 81920]) -> usize
    ensures out_after { (out.new ≡ show_prints file.now ++ drop result out.old) × (result ≡ length (show_prints file.now)) }
    ensures upper_bound { (result ≤ length out.new) × (result ≡ length (take result out.new)) }
{
    print::<Show>(file, &mut out[..])
}
