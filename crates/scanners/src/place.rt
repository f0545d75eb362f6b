// A place of a checked text at which a character begins, or its end, and what stands there.
ghost use Rattle.scanners.specs.Place.{Whole};

use crate::ascii_byte::Ascii;
use classes::{Class, class_of_scalar};
use utf8::Char;

// A character outside ASCII, by its scalar value, its end and its class.
#[derive(Clone, Copy, Debug, PartialEq, Eq)]
pub struct Seen {
    pub cp: u32,
    pub end: usize,
    pub class: Class,
}

// The character at a place: an ASCII byte, or one outside ASCII.
#[derive(Clone, Copy)]
pub enum Peek {
    Ascii(Ascii),
    Wide(Seen),
}

#[derive(Clone, Copy)]
pub struct Place<'a> {
    pub bytes: &'a [u8],
    pub pos: usize,
    pub ghost whole: { Whole bytes.now pos },
}

impl<'a> Place<'a> {
    ghost use Rattle.std.specs.Prelude.{◌≡◌, ◌≤◌, get_or};
    ghost use Rattle.utf8.specs.Utf8.{decode_at, Char as Reads};
    ghost use Rattle.classes.specs.Classes.{class_of};
    ghost use Rattle.scanners.specs.Place.{StandsWide, Peeks};

    // The character outside ASCII at the place, by two tests of its lead byte: checked text needs none of the others that `decode` makes.
    // The rules have it so, as proved indexing, where the Rust decodes unsafely.
    fn decode_cp(self) -> Char
        requires { 0x80 ≤ get_or self.bytes.now self.pos 0 }
        ensures { decode_at self.entry.bytes.now self.entry.pos ≡ Reads result.value result.width }
    {
        let Place { bytes, pos } = self;
        let b0 = bytes[pos] as u32;
        let b1 = bytes[pos + 1] as u32;
        if b0 < 0xe0 {
            return Char {
                value: b0 % 32 * 64 + b1 % 64,
                width: 2,
            };
        }
        let b2 = bytes[pos + 2] as u32;
        if b0 < 0xf0 {
            return Char {
                value: b0 % 16 * 4096 + b1 % 64 * 64 + b2 % 64,
                width: 3,
            };
        }
        let b3 = bytes[pos + 3] as u32;
        Char {
            value: b0 % 8 * 262144 + b1 % 64 * 4096 + b2 % 64 * 64 + b3 % 64,
            width: 4,
        }
    }

    // The character outside ASCII at the place. It stands apart, so that every scanner has the ASCII side of `peek_at`.
    #[inline(never)]
    fn wide_at(self) -> Seen
        requires { 0x80 ≤ get_or self.bytes.now self.pos 0 }
        ensures { (StandsWide self.entry.bytes.now self.entry.pos result.cp result.end) × (result.class ≡ class_of result.cp) }
    {
        let c = self.decode_cp();
        Seen {
            cp: c.value,
            end: self.pos + c.width,
            class: class_of_scalar(c.value),
        }
    }

    // What stands at the place, unless it is the text's end.
    pub fn peek_at(self) -> Option<Peek>
        ensures { Peeks self.entry.bytes.now self.entry.pos result }
    {
        let byte = *self.bytes.get(self.pos)?;
        if byte < 0x80 {
            return Some(Peek::Ascii(Ascii { byte }));
        }
        Some(Peek::Wide(self.wide_at()))
    }
}
