// Replays the oracle's kept cases. A line of standard input is a case, `C D S START HEX`: contractions, digit mode, slash, the start, and
// the text's bytes in hex, `-` for none. The line is written again with the ends of the walk from the start, or the refusal, behind
// it: the file `stdout` holds the oracle's answers.
#![tactic(auto)]

ghost use Rattle.std.specs.Prelude.{◌≤◌, length};

use pattern::Options;
use std::io;
use support::{filled, hex_digit, read_full};

// The number in front, of at most eighteen digits, 0 where there is none, as the program reads such a line; and what stands behind
// the byte after it.
fn number(text: &[u8]) -> (usize, &[u8]) {
    let len = text
        .iter()
        .take(18)
        .take_while(|b| b.is_ascii_digit())
        .count();
    let digits = std::str::from_utf8(&text[..len]).unwrap_or("");
    (
        digits.parse().unwrap_or(0),
        text.get(len + 1..).unwrap_or(&[]),
    )
}

// The byte of two hex digits. A second one that is missing is 0, as the program reads such a line.
fn byte_of(pair: &[u8]) -> Option<u8> {
    let high = pair.first().copied().and_then(hex_digit)?;
    let low = pair.get(1).copied().and_then(hex_digit).unwrap_or(0);
    Some(high * 16 + low)
}

// Puts the bytes whose hex stands in front at the front of `text`, and answers how many there are.
fn unhex(hex: &[u8], text: &mut [u8]) -> usize
    ensures { result ≤ length text.new }
{
    let mut pairs = hex.chunks(2);
    for (n, byte) in text.iter_mut().enumerate() {
        let Some(b) = pairs.next().and_then(byte_of) else {
            return n;
        };
        *byte = b;
    }
    text.len()
}

fn write_ends(rt: &impl Print, ends: &[u32]) -> io::Result<()> {
    for end in ends {
        print!(rt; " {end}")?;
    }
    Ok(())
}

// A refusal in words of its own: a `Display` in the library would promise nothing. The call is told by its parts, which it hands on once.
fn write_answer(rt: &impl Print, text: &[u8], o: Options, start: usize) -> io::Result<()> {
    // Nothing allocates: a case has at most 256 bytes.
    let mut ends = [0u32; 256];
    match pretokenize::fill(text, o, start, &mut ends) {
        Ok(f) => {
            if f.count <= 256 && f.next == text.len() {
                write_ends(rt, &ends[..f.count])
            } else {
                rt.print(" no walk to the end")
            }
        }
        Err(r) => print!(rt; " refused {} at {}", r.number(), r.place()),
    }
}

fn replay(rt: &impl Print, line: &[u8]) -> io::Result<()> {
    let (contractions, rest) = number(line);
    let (digits, rest) = number(rest);
    let (slash, rest) = number(rest);
    let (start, hex) = number(rest);
    let o = Options {
        contractions: contractions == 1,
        // A mode that does not fit is refused, as 255 is.
        digits: u8::try_from(digits).unwrap_or(255),
        slash: slash == 1,
    };
    // Nothing allocates: no case has more bytes.
    let mut text = [0u8; 256];
    let n = unhex(hex, &mut text);
    rt.write_all(line)?;
    rt.print(":")?;
    write_answer(rt, &text[..n], o, start)?;
    rt.print("\n")
}

// A last line may lack its LF.
fn replay_all(rt: &impl Print, cases: &[u8]) -> io::Result<()> {
    for line in cases.split_inclusive(|b| *b == b'\n') {
        replay(rt, line.strip_suffix(b"\n").unwrap_or(line))?;
    }
    Ok(())
}

fn main(rt: HostRuntime) -> io::Result<()> {
    // Nothing allocates: there is room for all cases.
    let mut cases = filled::<524288>(0);
    let n = read_full(&mut rt.stdin(), &mut cases)?;
    replay_all(&rt, &cases[..n])
}
