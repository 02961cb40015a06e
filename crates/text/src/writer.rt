// Bytes put one after the other into a lent slice.
ghost use Rattle.std.specs.Prelude.{◌≡◌};
ghost use Rattle.text.specs.Writer.{Wrote};

// A lent slice, and the place after the last byte put, whether or not the slice reaches there. The
// place would wrap after usize::MAX, which nothing that the public functions put reaches.
#[derive(Drop)]
pub(crate) struct Writer<'a> {
    out: &'a mut [u8],
    end: usize,
}

impl<'a> Writer<'a> {
    pub(crate) fn new(out: &'a mut [u8]) -> Writer<'a>
        ensures same_reference { result.out.ghost_name ≡ out.entry.ghost_name }
        ensures list { result.out.now ≡ out.old }
        ensures start { result.end ≡ 0 }
    {
        Writer { out, end: 0 }
    }

    // How many bytes were put, also those past the end of the slice.
    pub(crate) fn end(&self) -> usize
        ensures { result ≡ self.now.end }
    {
        self.end
    }

    // The slice and the place are taken out for the loop, since a byte's store could else be one of the place.
    pub(crate) fn bytes(&mut self, bytes: &[u8])
        ensures { Wrote self.old bytes.now self.new }
    {
        let out = &mut *self.out;
        let mut end = self.end;
        for &byte in bytes {
            if end < out.len() {
                out[end] = byte;
            }
            end = end.wrapping_add(1);
        }
        self.end = end;
    }
}
