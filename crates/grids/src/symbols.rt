// The symbols of document 01, 'Grids', by the Unicode charts Braille Patterns, Block Elements and
// Symbols for Legacy Computing. A stored pattern is read modulo its table's length.
ghost use Rattle.std.specs.Prelude.{◌≡◌, ◌%◌, ◌^◌};
ghost use Rattle.grids.specs.Symbols.{braille_symbol, quadrant_symbol, sextant_symbol, pattern_count, symbol_of};

use crate::markers::Marker;

const BRAILLE_WEIGHTS: [u32; 8] = [1, 8, 2, 16, 4, 32, 64, 128];

const QUADRANTS: [u32; 16] = [
    0x0020, 0x2598, 0x259D, 0x2580, 0x2596, 0x258C, 0x259E, 0x259B, 0x2597, 0x259A, 0x2590, 0x259C,
    0x2584, 0x2599, 0x259F, 0x2588,
];

// 2800 plus the weights of the dots that stand.
#[tactic(auto, unfolding(crate::specs::Symbols::braille_symbol))]
pub fn braille_symbol(pattern: u32) -> u32
    ensures { result ≡ braille_symbol pattern }
{
    let w = BRAILLE_WEIGHTS;
    let low = pattern % 2 * w[0]
        + pattern / 2 % 2 * w[1]
        + pattern / 4 % 2 * w[2]
        + pattern / 8 % 2 * w[3];
    let high = pattern / 16 % 2 * w[4]
        + pattern / 32 % 2 * w[5]
        + pattern / 64 % 2 * w[6]
        + pattern / 128 % 2 * w[7];
    0x2800 + low + high
}

#[tactic(auto, unfolding(crate::specs::Symbols::quadrant_symbol))]
pub fn quadrant_symbol(pattern: u32) -> u32
    ensures { result ≡ quadrant_symbol pattern }
{
    // By `as`, since usize has no From of u32.
    QUADRANTS[(pattern % 16) as usize]
}

// 1FB00 and on, without the patterns that the Block Elements have already.
#[tactic(auto, unfolding(crate::specs::Symbols::sextant_symbol))]
pub fn sextant_symbol(pattern: u32) -> u32
    ensures { result ≡ sextant_symbol pattern }
{
    match pattern % 64 {
        21 => 0x258C,
        42 => 0x2590,
        63 => 0x2588,
        p if p > 42 => 0x1FB00 + p - 3,
        p if p > 21 => 0x1FB00 + p - 2,
        p => 0x1FAFF + p,
    }
}

// A stored pattern, read modulo its table's length: by constants, since by dot_size it would be a division.
#[tactic(auto, unfolding(crate::specs::Symbols::pattern_count))]
pub fn read_pattern(marker: Marker, pattern: u32) -> u32
    ensures { result ≡ pattern % pattern_count marker }
{
    match marker {
        Marker::Braille => pattern % 256,
        Marker::HalfBlock => pattern % 4,
        Marker::Quadrant => pattern % 16,
        Marker::Sextant => pattern % 64,
        Marker::Dot | Marker::Block | Marker::Bar | Marker::Custom => pattern % 2,
    }
}

// The symbol of a pattern of dots; the character grids have one for every pattern. Custom's
// character is read modulo 2^21, which is above every scalar value.
pub fn symbol(marker: Marker, character: u32, pattern: u32) -> u32
    ensures { result ≡ symbol_of marker (character % 2 ^ 21) pattern }
{
    match marker {
        Marker::Braille => braille_symbol(pattern),
        Marker::Dot | Marker::HalfBlock => 0x2022,
        Marker::Block => 0x2588,
        Marker::Bar => 0x2584,
        Marker::Quadrant => quadrant_symbol(pattern),
        Marker::Sextant => sextant_symbol(pattern),
        Marker::Custom => character % 2097152,
    }
}
