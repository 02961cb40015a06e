// A symbol in UTF-8 (RFC 3629). What is no scalar value, or is a control character, is written as
// U+FFFD, so that no screen can send a terminal a control sequence.
ghost use Rattle.std.specs.Prelude.{◌≡◌};
ghost use Rattle.text.specs.Utf8.{shown_symbol, symbol_bytes};
ghost use Rattle.text.specs.Writer.{Wrote};

use crate::writer::Writer;

// The symbol itself, or U+FFFD in its place.
fn shown_symbol(symbol: u32) -> char
    ensures { result ≡ shown_symbol symbol }
{
    char::from_u32(symbol)
        .filter(|shown| !shown.is_control())
        .unwrap_or(char::REPLACEMENT_CHARACTER)
}

impl Writer<'_> {
    pub(crate) fn symbol(&mut self, symbol: u32)
        ensures { Wrote self.old (symbol_bytes symbol) self.new }
    {
        let mut buffer = [0; 4];
        let text = shown_symbol(symbol).encode_utf8(&mut buffer);
        self.bytes(text.as_bytes());
    }
}
