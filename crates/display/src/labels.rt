// The label store: what a print is refused on, and how its label is kept.
ghost use Rattle.std.specs.Prelude.{◌≡◌, ◌+◌, ◌*◌, ◌≤◌, false, length};
ghost use Rattle.view.specs.Limits.{max_text};
ghost use Rattle.ledger.specs.Calls.{bad_choice, bad_text};
ghost use Rattle.ledger.specs.Ledger.{choice_word};
ghost use Rattle.ledger.specs.Labels.{column_word, row_word, put_label};

use limits::state::is_bad_colour;

// A colour above Reset.
pub fn is_bad_choice(choice: Option<u32>) -> bool
    ensures { result ≡ bad_choice choice }
{
    choice.is_some_and(|colour| is_bad_colour(colour))
}

// A colour's word: 0 for none.
pub fn choice_word(choice: Option<u32>) -> u32
    ensures { bad_choice choice ≡ false → result ≡ choice_word choice }
{
    choice.map_or(0, |colour| colour.wrapping_add(1))
}

// More than 40 bytes, or a byte outside 20 to 7E.
pub fn is_bad_text(text: &[u8]) -> bool
    ensures { result ≡ bad_text text.now }
{
    text.len() > 40 || text.iter().any(|byte| (*byte < 0x20) | (*byte > 0x7E))
}

// A place's two words.
fn place_words(place: Option<(u16, u16)>) -> (u32, u32)
    ensures { (result.0 ≡ column_word place) × (result.1 ≡ row_word place) }
{
    match place {
        None => (0, 0),
        Some((column, row)) => (u32::from(column) + 1, u32::from(row)),
    }
}

// The label k made this one, where the store has room for it.
#[tactic(auto, using(ledger::proofs::Runs::sets_more))]
pub fn put_label(labels: &mut [u32], k: u32, place: Option<(u16, u16)>, word: u32, text: &[u8])
    ensures { k * 44 + 44 ≤ length labels.old → length text.now ≤ max_text
        → labels.new ≡ put_label labels.old k (record { place = place; word = word; text = text.now }) }
{
    // By `as`, here and below: usize has no From of u32, and at most 40 bytes are counted.
    let at = (k as usize) * 44;
    if (at + 44 <= labels.len()) & (text.len() <= 40) {
        let (column, row) = place_words(place);
        let label = &mut labels[at..at + 44];
        label[0] = column;
        label[1] = row;
        label[2] = word;
        label[3] = text.len() as u32;
        for (i, byte) in text.iter().enumerate() {
            label[4 + i] = u32::from(*byte);
        }
    }
}
