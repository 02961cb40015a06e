// The screen that a picture is rendered on: its size in words, and its blank cells.
ghost use Rattle.std.specs.Prelude.{◌≡◌};
ghost use Rattle.report.specs.Screen.{blank_screen, picture_size};

use form::fields::FieldValue;
use limits::state::RESET;
use picture::opening::Largest;

// Every whole cell becomes blank; the words left over stay as they are.
pub fn blank_screen(screen: &mut [u32])
    ensures { screen.new ≡ blank_screen screen.old }
{
    // By an index, as in crate display: what a loop over chunks_exact_mut wrote is not known after it.
    for k in 0..screen.len() / 3 {
        let i = k * 3;
        screen[i] = 0x20;
        screen[i + 1] = RESET;
        screen[i + 2] = RESET;
    }
}

// The words of a screen of the picture's size; 0 where the size is above the limits, since such a
// file is refused.
pub fn picture_size(file: &[u8], largest: Largest) -> usize
    ensures { result ≡ picture_size file.now largest.columns largest.rows }
{
    let columns = u16::read(file, 0);
    let rows = u16::read(file, 2);
    if (columns > largest.columns) | (rows > largest.rows) {
        return 0;
    }
    usize::from(columns) * usize::from(rows) * 3
}
