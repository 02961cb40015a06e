// A step's bytes, little-endian: op (place 0), a (1), b (2), n (4 to 7), m (8 to 11), k (12 to 15) and
// six words, w0 to w5, of 8 bytes from 16 on.
use form::fields::{FieldValue, has};
use ledger::state::Opening;
use shapes::painters::Shape;
use walk::clip::{Bounds, Segment};

#[derive(Clone, Copy)]
pub struct Step {
    bytes: [u8; 64],
}

impl Step {
    pub fn new(bytes: [u8; 64]) -> Step {
        Step { bytes }
    }

    pub fn op(&self) -> u8 {
        u8::read(&self.bytes, 0)
    }

    pub fn a(&self) -> u8 {
        u8::read(&self.bytes, 1)
    }

    pub fn has_colour(&self) -> bool {
        has(u8::read(&self.bytes, 2), 2)
    }

    pub fn n(&self) -> u32 {
        u32::read(&self.bytes, 4)
    }

    pub fn m(&self) -> u32 {
        u32::read(&self.bytes, 8)
    }

    pub fn k(&self) -> u32 {
        u32::read(&self.bytes, 12)
    }

    // The word i by its low bytes, as many as the type has, or as a float.
    pub fn word<T: FieldValue>(&self, i: u8) -> T {
        T::read(&self.bytes, 16 + 8 * usize::from(i))
    }

    pub fn low_bit(&self) -> bool {
        self.word::<u8>(0) % 2 == 1
    }

    // k: columns and rows; w0 to w3: left, right, bottom, top; a marker, m character, n background.
    pub fn opening(&self) -> Opening {
        Opening {
            columns: u16::read(&self.bytes, 12),
            rows: u16::read(&self.bytes, 14),
            bounds: Bounds {
                left: self.word(0),
                right: self.word(1),
                bottom: self.word(2),
                top: self.word(3),
            },
            marker: self.a(),
            character: self.m(),
            background: self.n(),
        }
    }

    // w0 to w3: x1, y1, x2, y2.
    pub fn segment(&self) -> Segment {
        Segment {
            x1: self.word(0),
            y1: self.word(1),
            x2: self.word(2),
            y2: self.word(3),
        }
    }

    // w0 to w3: x, y, width, height; and w0 to w2: x, y, radius.
    pub fn rectangle(&self) -> Shape {
        Shape::Rectangle(self.word(0), self.word(1), self.word(2), self.word(3))
    }

    pub fn circle(&self) -> Shape {
        Shape::Circle(self.word(0), self.word(1), self.word(2))
    }

    // The bytes from place 8 on.
    pub fn tail(&self) -> &[u8] {
        &self.bytes[8..]
    }
}
