// Runs document 01's examples and the edges of its refusal table through the entry points, and writes a line for each: the file
// `stdout` holds the document's answers. What `next_end`, `token`, `fill` and the walker say of one call must agree.
#![tactic(auto)]

ghost use Rattle.std.specs.Prelude.{◌≤◌, ◌<◌};

use classes::NoScalar;
use pattern::Options;
use pretokenize::{Filled, NextEnd, Refusal, Step, Walker};
use std::{fmt, io};
use support::filled;

// What the entry points say of one call: a token's end, or a number of document 01's table with its place. It is written whether
// they agree or not.
#[derive(Clone, Copy)]
struct Answer {
    said: Result<NextEnd, Refusal>,
    is_agreed: bool,
}

// A refusal in words of its own: a `Display` in the library would promise nothing.
impl fmt::Display for Answer {
    fn fmt<W: fmt::Write>(&self, f: &mut fmt::Formatter<W>) -> fmt::Result {
        if !self.is_agreed {
            f.write_str(" (the entry points differ)")?;
        }
        match self.said {
            Ok(NextEnd::At(end)) => write!(f, " {end}"),
            Ok(NextEnd::End(place)) => write!(f, " end of text at {place}"),
            Err(r) => write!(f, " refused {} at {}", r.number(), r.place()),
        }
    }
}

// A call of the entry points.
#[derive(Clone, Copy)]
struct Call<'a> {
    text: &'a [u8],
    options: Options,
    start: usize,
}

impl Call<'_> {
    // Does the token's length go with the answer?
    fn token_agrees(self, said: Result<NextEnd, Refusal>) -> bool {
        let len = match said {
            Ok(NextEnd::At(end)) => end.saturating_sub(self.start),
            Ok(NextEnd::End(_)) | Err(_) => 0,
        };
        pretokenize::token(self.text, self.options, self.start).len() == len
    }

    // Does a step of the walker give the answer, and move to the token's end or not at all?
    fn step_agrees(self, said: Result<NextEnd, Refusal>) -> bool {
        let at = match said {
            Ok(NextEnd::At(end)) => end,
            Ok(NextEnd::End(_)) | Err(_) => self.start,
        };
        let options = self.options;
        let walker = Walker {
            options,
            at: self.start,
        };
        let after = Step {
            answer: said,
            walker: Walker { options, at },
        };
        walker.step(self.text) == after
    }

    // Does a fill with room for one end write it, or nothing at all, and say so?
    fn fill_agrees(self, said: Result<NextEnd, Refusal>) -> bool {
        let mut ends = [7u32; 2];
        let f = pretokenize::fill(self.text, self.options, self.start, &mut ends[..1]);
        let [first, second] = ends;
        let next = self.start;
        let (expected, is_written) = match said {
            Ok(NextEnd::At(next)) => (Ok(Filled { count: 1, next }), first as usize == next),
            Ok(NextEnd::End(_)) => (Ok(Filled { count: 0, next }), first == 7),
            Err(r) => (Err(r), first == 7),
        };
        f == expected && is_written && second == 7
    }

    fn answer(self) -> Answer {
        let said = pretokenize::next_end(self.text, self.options, self.start);
        Answer {
            said,
            is_agreed: self.token_agrees(said) && self.step_agrees(said) && self.fill_agrees(said),
        }
    }
}

// One call, told apart by its parts, which is shorter at each of the many edges.
fn edge(
    rt: &impl Print,
    name: &str,
    text: &[u8],
    options: Options,
    start: usize,
) -> io::Result<()> {
    let call = Call {
        text,
        options,
        start,
    };
    println!(rt; "{name}:{}", call.answer())
}

// The answers at zero and at each end that a fill gave.
fn write_walk(rt: &impl Print, from: Call<'_>, ends: &[u32]) -> io::Result<()> {
    let mut call = from;
    for &end in ends {
        print!(rt; "{}", call.answer())?;
        call.start = end as usize;
    }
    Ok(())
}

// A walk from zero.
fn example(rt: &impl Print, name: &str, text: &[u8], options: Options) -> io::Result<()> {
    print!(rt; "{name}:")?;
    let call = Call {
        text,
        options,
        start: 0,
    };
    // Nothing allocates: no example has more tokens.
    let mut ends = [0u32; 64];
    match pretokenize::fill(text, options, 0, &mut ends) {
        Ok(f) => {
            if f.count <= 64 && f.next == text.len() {
                write_walk(rt, call, &ends[..f.count])?;
            } else {
                rt.print(" not to the end")?;
            }
        }
        Err(_) => print!(rt; "{}", call.answer())?,
    }
    rt.print("\n")
}

fn mode(digits: u8) -> Options {
    Options {
        digits,
        ..Options::o200k()
    }
}

// The examples, in the document's order; those that are marked are proved of the definition too.
fn bench_examples(rt: &impl Print) -> io::Result<()> {
    let o = Options::o200k();
    example(rt, "empty", b"", o)?;
    example(rt, "THD 1250", b"THD 1250", o)?;
    example(rt, "THD 1250, mode 2", b"THD 1250", mode(2))?;
    example(rt, "THD 1250, mode 0", b"THD 1250", mode(0))?;
    example(rt, "0,5", b"0,5", o)
}

fn suffix_examples(rt: &impl Print) -> io::Result<()> {
    let o = Options::o200k();
    let off = Options {
        contractions: false,
        ..o
    };
    example(rt, "don't", b"don't", o)?;
    example(rt, "don't, contractions off", b"don't", off)?;
    example(rt, "'sound", b"'sound", o)?;
    example(rt, "x'll'd", b"x'll'd", o)?;
    example(rt, "61 27 C5 BF 62", b"a'\xc5\xbfb", o)
}

fn case_examples(rt: &impl Print) -> io::Result<()> {
    let o = Options::o200k();
    example(rt, "D7 90 41", b"\xd7\x90A", o)?;
    example(rt, "D7 90 41 62", b"\xd7\x90Ab", o)?;
    example(rt, "CC 81 41", b"\xcc\x81A", o)
}

fn white_examples(rt: &impl Print) -> io::Result<()> {
    let o = Options::o200k();
    let off = Options { slash: false, ..o };
    example(rt, "two spaces and a", b"  a", o)?;
    example(rt, "20 0A 20 78", b" \n x", o)?;
    example(rt, "21 0A 2F 21", b"!\n/!", o)?;
    example(rt, "21 0A 2F 21, slash off", b"!\n/!", off)
}

fn mixed_examples(rt: &impl Print) -> io::Result<()> {
    let o = Options::o200k();
    example(rt, "aB", b"aB", o)?;
    example(rt, "ABc", b"ABc", o)?;
    example(rt, "09 56", b"\tV", o)?;
    example(rt, "09 35", b"\t5", o)?;
    example(rt, "C2 A0 61", b"\xc2\xa0a", o)?;
    example(rt, "31 C2 B2 33 34", b"1\xc2\xb234", o)?;
    example(rt, "31 C2 B2 33 34, mode 2", b"1\xc2\xb234", mode(2))
}

// The text's own refusal, and where it passes the token at zero.
fn damage(rt: &impl Print) -> io::Result<()> {
    let o = Options::o200k();
    edge(rt, "F4 8F BF BF", b"\xf4\x8f\xbf\xbf", o, 0)?;
    edge(rt, "F4 90 80 80", b"\xf4\x90\x80\x80", o, 0)?;
    edge(rt, "C2 80", b"\xc2\x80", o, 0)?;
    edge(rt, "C0 80", b"\xc0\x80", o, 0)?;
    edge(rt, "ED 9F BF", b"\xed\x9f\xbf", o, 0)?;
    edge(rt, "ED A0 80", b"\xed\xa0\x80", o, 0)?;
    edge(rt, "E2 82", b"\xe2\x82", o, 0)?;
    edge(rt, "a euro sign FF", b"a\xe2\x82\xac\xff", o, 0)
}

fn starts(rt: &impl Print) -> io::Result<()> {
    let o = Options::o200k();
    edge(rt, "abc from 3", b"abc", o, 3)?;
    edge(rt, "abc from 4", b"abc", o, 4)?;
    edge(rt, "abc from the last start", b"abc", o, usize::MAX)?;
    edge(rt, "empty from 0", b"", o, 0)?;
    edge(rt, "empty from 1", b"", o, 1)
}

fn starts_in_characters(rt: &impl Print) -> io::Result<()> {
    let o = Options::o200k();
    let text = b"\xc3\xa9\xe2\x82\xac\xf0\x9f\x98\x80";
    edge(rt, "two bytes from 1", text, o, 1)?;
    edge(rt, "three bytes from 3", text, o, 3)?;
    edge(rt, "three bytes from 4", text, o, 4)?;
    edge(rt, "four bytes from 6", text, o, 6)?;
    edge(rt, "four bytes from 7", text, o, 7)?;
    edge(rt, "four bytes from 8", text, o, 8)?;
    edge(rt, "after them from 9", text, o, 9)
}

// The first of several refusals, in the order 1, 2, 3, then 4 or 5.
fn order(rt: &impl Print, long: &[u8]) -> io::Result<()> {
    let damaged = b"\xc3\xa9\xff";
    edge(rt, "mode 3", b"abc", mode(3), 0)?;
    edge(rt, "mode 255", b"abc", mode(255), 0)?;
    edge(rt, "mode 3 at the end of text", b"abc", mode(3), 3)?;
    edge(
        rt,
        "mode 3, over the limit, damaged, past the end",
        long,
        mode(3),
        2000000,
    )?;
    edge(
        rt,
        "mode 3, damaged, inside a character",
        damaged,
        mode(3),
        1,
    )
}

fn order_past_mode(rt: &impl Print, long: &[u8]) -> io::Result<()> {
    let o = Options::o200k();
    let damaged = b"\xc3\xa9\xff";
    edge(
        rt,
        "over the limit, damaged, past the end",
        long,
        o,
        2000000,
    )?;
    edge(rt, "damaged, past the end", damaged, o, 4)?;
    edge(rt, "damaged, inside a character", damaged, o, 1)?;
    edge(rt, "damaged, at the end of text", damaged, o, 3)
}

// A fill without room: a count of 0 and the start again, unless the call is refused.
fn no_room(rt: &impl Print, name: &str, text: &[u8], o: Options, start: usize) -> io::Result<()> {
    match pretokenize::fill(text, o, start, &mut []) {
        Ok(f) => println!(rt; "{name}: count {}, next {}", f.count, f.next),
        Err(_) => edge(rt, name, text, o, start),
    }
}

fn rooms(rt: &impl Print) -> io::Result<()> {
    let o = Options::o200k();
    no_room(rt, "no room, abc from 0", b"abc", o, 0)?;
    no_room(rt, "no room, abc from 1", b"abc", o, 1)?;
    no_room(rt, "no room, abc from 3", b"abc", o, 3)?;
    no_room(rt, "no room, abc from 4", b"abc", o, 4)?;
    no_room(rt, "no room, mode 3", b"abc", mode(3), 0)?;
    no_room(rt, "no room, damaged", b"abc\xff", o, 0)
}

// As many bytes as are taken, and one more.
fn limits(rt: &impl Print) -> io::Result<()> {
    let o = Options::o200k();
    let most = filled::<1048576>(b'a');
    edge(rt, "1048576 bytes", &most, o, 0)?;
    edge(rt, "1048576 bytes from the last", &most, o, 1048575)?;
    let more = filled::<1048577>(b'a');
    edge(rt, "1048577 bytes", &more, o, 0)
}

fn damaged_limits(rt: &impl Print) -> io::Result<()> {
    let o = Options::o200k();
    let most = filled::<1048576>(0xff);
    edge(rt, "1048576 bytes, damaged", &most, o, 0)?;
    let more = filled::<1048577>(0xff);
    order(rt, &more)?;
    order_past_mode(rt, &more)
}

// A class asked of a number that is no scalar value is refusal 6, place 0.
fn class_edge(rt: &impl Print, name: &str, c: u32) -> io::Result<()> {
    match classes::class_of(c) {
        Ok(_) => println!(rt; "{name}: has a class"),
        Err(NoScalar) => println!(rt; "{name}: refused 6 at 0"),
    }
}

fn class_edges(rt: &impl Print) -> io::Result<()> {
    class_edge(rt, "class of D7FF", 0xd7ff)?;
    class_edge(rt, "class of D800", 0xd800)?;
    class_edge(rt, "class of DFFF", 0xdfff)?;
    class_edge(rt, "class of E000", 0xe000)?;
    class_edge(rt, "class of 10FFFF", 0x10ffff)?;
    class_edge(rt, "class of 110000", 0x110000)?;
    class_edge(rt, "class of FFFFFFFF", 0xffffffff)
}

// How many starts after the first byte of a character are refused as inside it, up to the first that is not.
fn starts_inside(c: char) -> usize
    ensures { result < 4 }
{
    let mut buf = [0u8; 4];
    let text = c.encode_utf8(&mut buf).as_bytes();
    for start in 1..text.len() {
        if pretokenize::checked(text, Options::o200k(), start) != Err(Refusal::Inside(0)) {
            return start - 1;
        }
    }
    text.len() - 1
}

// How many starts are refused as inside one of some characters.
fn count_inside(from: u32, to: u32) -> usize
    requires { (from ≤ to) × (to ≤ 1114112) }
    ensures { result ≤ 3342336 }
{
    let mut count = 0;
    for value in from..to {
        count += char::from_u32(value).map_or(0, starts_inside);
    }
    count
}

// Every start inside every character.
fn every_start(rt: &impl Print) -> io::Result<()> {
    let two = count_inside(0x80, 0x800);
    println!(rt; "starts inside a character of two bytes, refused 5 at 0: {two}")?;
    let three = count_inside(0x800, 0x10000);
    println!(rt; "starts inside a character of three bytes, refused 5 at 0: {three}")?;
    let four = count_inside(0x10000, 0x110000);
    println!(rt; "starts inside a character of four bytes, refused 5 at 0: {four}")
}

fn main(rt: HostRuntime) -> io::Result<()> {
    bench_examples(&rt)?;
    suffix_examples(&rt)?;
    case_examples(&rt)?;
    white_examples(&rt)?;
    mixed_examples(&rt)?;
    damage(&rt)?;
    starts(&rt)?;
    starts_in_characters(&rt)?;
    limits(&rt)?;
    damaged_limits(&rt)?;
    rooms(&rt)?;
    class_edges(&rt)?;
    every_start(&rt)
}
