// Runs the refusal edges of document 01, and every lead byte with every second byte, through the check and the decoder.
// The pairs are compared with a rule in another form than the decoder's: the bits are put together by the lead byte's leading
// ones, and then what is overlong, a surrogate or past the last value is refused.
#![tactic(auto)]

ghost use Rattle.std.specs.Prelude.{◌≤◌, ◌<◌, length, IfSome};

use std::io;
use utf8::{BadAt, Char, NoChar};

// The width that a lead byte asks for, by its leading ones.
fn width_asked(lead: u8) -> Option<usize>
    ensures { IfSome result (λ w. 0 < w) }
{
    match lead.leading_ones() {
        0 => Some(1),
        2 => Some(2),
        3 => Some(3),
        4 => Some(4),
        _ => None,
    }
}

// The bits of a lead byte that belong to the value.
fn payload(lead: u8, width: usize) -> u32
    ensures { result < 256 }
{
    match width {
        2 => u32::from(lead % 32),
        3 => u32::from(lead % 16),
        4 => u32::from(lead % 8),
        _ => u32::from(lead),
    }
}

// The least value that takes a width; a lesser one is overlong.
fn least(width: usize) -> u32 {
    match width {
        2 => 0x80,
        3 => 0x800,
        4 => 0x10000,
        _ => 0,
    }
}

// The lead byte's bits with six of each byte after it, if each is a continuation byte.
// A value past the last stays past it, so that it needs no further bits.
fn assembled(bits: u32, after: &[u8]) -> Option<u32> {
    let mut value = bits;
    for b in after {
        if b / 64 != 2 || value > 0x10ffff {
            return None;
        }
        value = value * 64 + u32::from(b % 64);
    }
    Some(value)
}

// Whether a value is a scalar value that takes the width: not overlong, no surrogate, not past the last.
fn is_value(value: u32, width: usize) -> bool {
    value >= least(width) && value / 2048 != 27 && value <= 0x10ffff
}

// The character at the start of some bytes.
fn rule(text: &[u8]) -> Option<Char>
    ensures { IfSome result (λ c. (0 < c.width) × (c.width ≤ length text.now)) }
{
    let lead = *text.first()?;
    let width = width_asked(lead)?;
    if text.len() < width {
        return None;
    }
    let value = assembled(payload(lead, width), &text[1..width])?;
    if is_value(value, width) {
        Some(Char { value, width })
    } else {
        None
    }
}

// The check by the rule.
fn rule_check(text: &[u8]) -> Result<(), BadAt> {
    let mut at = 0;
    // The place moves by whole characters, so that no `for` counts it.
    while at < text.len() {
        let Some(c) = rule(&text[at..]) else {
            return Err(BadAt(at));
        };
        at += c.width;
    }
    Ok(())
}

// Whether the decoder and the check agree with the rule on some bytes, of which there is at least one.
fn agrees(text: &[u8]) -> bool {
    utf8::decode(text, 0) == rule(text).ok_or(NoChar::Bad) && utf8::check(text) == rule_check(text)
}

// A lead byte and a second byte, completed by 80 80.
fn completed(pair: u16) -> [u8; 4] {
    let [lead, second] = pair.to_be_bytes();
    [lead, second, 0x80, 0x80]
}

// Whether all agree on a pair, completed and cut short.
fn pair_agrees(pair: u16) -> bool {
    let text = completed(pair);
    agrees(&text) && agrees(&text[..2])
}

// The first pair that differs.
fn first_other() -> Option<u16> {
    (0..=u16::MAX).find(|pair| !pair_agrees(*pair))
}

// The width of the character at the start of some bytes by the decoder.
fn width_of(text: &[u8]) -> Option<usize> {
    utf8::decode(text, 0).ok().map(|c| c.width)
}

// The width of the character that so many bytes of a completed pair begin with.
fn pair_width(pair: u16, len: usize) -> Option<usize>
    requires { len ≤ 4 }
{
    width_of(&completed(pair)[..len])
}

// How many pairs have a character of a width, or none, in so many bytes.
fn count(width: Option<usize>, len: usize) -> usize
    requires { len ≤ 4 }
{
    (0..=u16::MAX)
        .filter(|pair| pair_width(*pair, len) == width)
        .count()
}

fn differs(rt: &impl Print, pair: u16) -> io::Result<()> {
    let [lead, second] = pair.to_be_bytes();
    println!(rt; "differs at {lead:02x} {second:02x}")
}

fn pairs(rt: &impl Print) -> io::Result<()> {
    if let Some(pair) = first_other() {
        return differs(rt, pair);
    }
    println!(rt; "pairs {}", (0..=u16::MAX).count())?;
    println!(rt; "1 byte {}", count(Some(1), 4))?;
    println!(rt; "2 bytes {}", count(Some(2), 4))?;
    println!(rt; "3 bytes {}", count(Some(3), 4))?;
    println!(rt; "4 bytes {}", count(Some(4), 4))?;
    println!(rt; "ill-formed {}", count(None, 4))?;
    println!(rt; "cut short, 1 byte {}", count(Some(1), 2))?;
    println!(rt; "cut short, 2 bytes {}", count(Some(2), 2))?;
    println!(rt; "cut short, ill-formed {}", count(None, 2))
}

// The line of an edge that the check passes. The decoder must find one character there, or nothing, of the width 0 that the empty text has.
fn passes(rt: &impl Print, name: &str, text: &[u8]) -> io::Result<()> {
    if width_of(text).unwrap_or(0) == text.len() {
        println!(rt; "{name} valid")
    } else {
        println!(rt; "{name} differs")
    }
}

// The line of an edge that is refused at a place. The decoder must refuse it there.
fn refuses(rt: &impl Print, name: &str, text: &[u8], at: usize) -> io::Result<()> {
    if utf8::decode(text, at) == Err(NoChar::Bad) {
        println!(rt; "{name} bad at {at}")
    } else {
        println!(rt; "{name} differs")
    }
}

fn edge(rt: &impl Print, name: &str, text: &[u8]) -> io::Result<()> {
    match utf8::check(text) {
        Ok(()) => passes(rt, name, text),
        Err(BadAt(at)) => refuses(rt, name, text, at),
    }
}

fn main(rt: HostRuntime) -> io::Result<()> {
    edge(&rt, "F4 8F BF BF", b"\xf4\x8f\xbf\xbf")?;
    edge(&rt, "F4 90 80 80", b"\xf4\x90\x80\x80")?;
    edge(&rt, "C2 80", b"\xc2\x80")?;
    edge(&rt, "C0 80", b"\xc0\x80")?;
    edge(&rt, "ED 9F BF", b"\xed\x9f\xbf")?;
    edge(&rt, "ED A0 80", b"\xed\xa0\x80")?;
    edge(&rt, "E2 82", b"\xe2\x82")?;
    edge(&rt, "61 E2 82 AC FF", b"a\xe2\x82\xac\xff")?;
    edge(&rt, "empty", b"")?;
    pairs(&rt)
}
