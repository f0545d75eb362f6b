// UTF-8: one character at a place of some bytes, and the place of the first ill-formed sequence of a text.
#![tactic(auto)]

ghost use Rattle.std.specs.Prelude.{◌≡◌, get_or};
ghost use Rattle.utf8.specs.LargestByte.{largest};
ghost use Rattle.utf8.specs.Utf8.{lead_of, decode_at, decoded, checked, checked_as, within as between, from2, from3, from4};

// How long the sequence of a lead byte is, and the range of its second byte where there is more than one.
#[derive(Clone, Copy, Debug, PartialEq, Eq)]
pub enum Lead {
    One,
    Two,
    Three(u32, u32),
    Four(u32, u32),
}

// A character that stands at a place of some bytes: its scalar value, and how many bytes it takes.
#[derive(Clone, Copy, Debug, PartialEq, Eq)]
pub struct Char {
    pub value: u32,
    pub width: usize,
}

// Why no character stands at a place: an ill-formed sequence begins there, or the bytes have ended.
#[derive(Clone, Copy, Debug, PartialEq, Eq)]
pub enum NoChar {
    Bad,
    End,
}

// The place of the first ill-formed sequence of a text.
#[derive(Clone, Copy, Debug, PartialEq, Eq)]
pub struct BadAt(pub usize);

// Table 3-7 of The Unicode Standard, by its nine ranges of lead bytes; any other byte begins no character.
#[tactic(auto, using(crate::proofs::Table::rows))]
fn lead_of(b: u32) -> Option<Lead>
    ensures { result ≡ lead_of b }
{
    match b {
        0x00..=0x7f => Some(Lead::One),
        0xc2..=0xdf => Some(Lead::Two),
        0xe0 => Some(Lead::Three(0xa0, 0xbf)),
        0xe1..=0xec => Some(Lead::Three(0x80, 0xbf)),
        0xed => Some(Lead::Three(0x80, 0x9f)),
        0xee..=0xef => Some(Lead::Three(0x80, 0xbf)),
        0xf0 => Some(Lead::Four(0x90, 0xbf)),
        0xf1..=0xf3 => Some(Lead::Four(0x80, 0xbf)),
        0xf4 => Some(Lead::Four(0x80, 0x8f)),
        _ => None,
    }
}

// The byte at a place, 0 past the end, as the definition `decode1` counts it.
pub fn byte_at(text: &[u8], at: usize) -> u8
    ensures { result ≡ get_or text.now at 0 }
{
    text.get(at).copied().unwrap_or(0)
}

fn byte(text: &[u8], at: usize) -> u32
    ensures { result ≡ get_or text.now at 0 }
{
    u32::from(byte_at(text, at))
}

// Is b from a to z?
pub fn within(a: u32, b: u32, z: u32) -> bool
    ensures { result ≡ between a b z }
{
    a <= b && b <= z
}

// A character of two, three and four bytes. Each has the standard's own formula, as `from2` to `from4` state it; a loop over the bytes
// after the first would need bounds on their number and bits.
fn two(b: u32, b1: u32) -> Result<Char, NoChar>
    ensures { decoded result ≡ from2 b b1 }
{
    if !within(0x80, b1, 0xbf) {
        return Err(NoChar::Bad);
    }
    let value = b % 32 * 64 + b1 % 64;
    Ok(Char { value, width: 2 })
}

fn three(low: u32, high: u32, b: u32, b1: u32, b2: u32) -> Result<Char, NoChar>
    ensures { decoded result ≡ from3 low high b b1 b2 }
{
    if !within(low, b1, high) || !within(0x80, b2, 0xbf) {
        return Err(NoChar::Bad);
    }
    let value = b % 16 * 4096 + b1 % 64 * 64 + b2 % 64;
    Ok(Char { value, width: 3 })
}

fn four(low: u32, high: u32, b: u32, b1: u32, b2: u32, b3: u32) -> Result<Char, NoChar>
    ensures { decoded result ≡ from4 low high b b1 b2 b3 }
{
    if !within(low, b1, high) || !within(0x80, b2, 0xbf) || !within(0x80, b3, 0xbf) {
        return Err(NoChar::Bad);
    }
    let value = b % 8 * 262144 + b1 % 64 * 4096 + b2 % 64 * 64 + b3 % 64;
    Ok(Char { value, width: 4 })
}

// The character at a place of text, or why none stands there.
#[tactic(auto, using(crate::proofs::At::decode_some, crate::proofs::At::decode_none))]
pub fn decode(text: &[u8], at: usize) -> Result<Char, NoChar>
    ensures { decoded result ≡ decode_at text.now at }
{
    if text.len() <= at {
        return Err(NoChar::End);
    }
    let b = byte(text, at);
    let Some(lead) = lead_of(b) else {
        return Err(NoChar::Bad);
    };
    match lead {
        Lead::One => Ok(Char { value: b, width: 1 }),
        Lead::Two => two(b, byte(text, at + 1)),
        Lead::Three(low, high) => three(low, high, b, byte(text, at + 1), byte(text, at + 2)),
        Lead::Four(low, high) => four(
            low,
            high,
            b,
            byte(text, at + 1),
            byte(text, at + 2),
            byte(text, at + 3),
        ),
    }
}

// The largest byte of text, 0 if it has none, as the definition has it. There is no branch in the loop, so that the compiler takes many
// bytes at once.
#[tactic(auto, using(crate::proofs::LargestByte::largest_step, crate::proofs::LargestByte::largest_end))]
pub fn largest(text: &[u8]) -> u8
    ensures { result ≡ largest text.now }
{
    let mut most: u8 = 0;
    for &b in text {
        most = most.max(b);
    }
    most
}

// The check, character by character. The place moves by whole characters, so that no `for` counts it.
fn check_chars(text: &[u8]) -> Result<(), BadAt>
    ensures { checked_as result ≡ checked text.now }
{
    let mut at = 0;
    loop {
        match decode(text, at) {
            Ok(c) => at += c.width,
            Err(NoChar::Bad) => return Err(BadAt(at)),
            Err(NoChar::End) => return Ok(()),
        }
    }
}

// The place of the first ill-formed sequence of a text that has one. Pure ASCII goes by without a character being decoded.
#[tactic(auto, using(crate::proofs::At::checked_valid, crate::proofs::Place::ascii_valid, crate::proofs::LargestByte::largest_bounds))]
pub fn check(text: &[u8]) -> Result<(), BadAt>
    ensures { checked_as result ≡ checked text.now }
{
    if largest(text) < 0x80 {
        return Ok(());
    }
    check_chars(text)
}
