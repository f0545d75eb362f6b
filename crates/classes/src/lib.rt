// The classes of characters: the table, the class of a number, and the tests of an ASCII byte.
#![tactic(auto)]

mod ranges;

ghost use Rattle.std.specs.Prelude.{◌≡◌};
ghost use Rattle.std.specs.Option.{unwrap_or};
ghost use Rattle.utf8.specs.Utf8.{scalar};
ghost use Rattle.classes.specs.declared.Class.{Class as ClassOf};
ghost use Rattle.classes.specs.Classes.{class_of, class_in, white_space, rank, class_said, ascii_is, ascii_letter, answer};
ghost use Rattle.classes.specs.Rows.{named, ranges_of, class_at, table};

use utf8::within;

// The seven classes of document 01, in its order.
#[derive(Clone, Copy, Debug, PartialEq, Eq)]
pub enum Class {
    Upper,
    Lower,
    Caseless,
    Mark,
    Number,
    Whitespace,
    Other,
}

// That a number is no scalar value, and so has no class: refusal 6, place 0.
#[derive(Clone, Copy, Debug, PartialEq, Eq)]
pub struct NoScalar;

// What the class look-up goes by.
pub type Table = [u32; 6924];

// The eleven ranges of White_Space, in rows as the table has.
static WHITE_SPACE: [u32; 33] = [
    0x9, 0xd, 5, 0x20, 0x20, 5, 0x85, 0x85, 5, 0xa0, 0xa0, 5, 0x1680, 0x1680, 5, 0x2000, 0x200a, 5,
    0x2028, 0x2028, 5, 0x2029, 0x2029, 5, 0x202f, 0x202f, 5, 0x205f, 0x205f, 5, 0x3000, 0x3000, 5,
];

// The class ranges in rows: of each its first value, its last, and the rank of its class. Rows are numbers, since `class_at` answers of
// any rows that are lent.
#[tactic(auto, unfolding(crate::specs::Rows::table))]
pub fn table() -> &'static Table
    ensures { result.now ≡ table }
{
    &ranges::RANGES
}

// The rows of White_Space.
#[tactic(auto, unfolding(crate::specs::Rows::ranges_of, crate::specs::Classes::white_space))]
fn white_rows() -> &'static [u32]
    ensures { ranges_of result.now ≡ white_space }
{
    &WHITE_SPACE
}

// The class of a rank in a row; a `From` would promise this reading to everybody.
fn class_named(rank: u32) -> Class
    ensures { result ≡ named rank }
{
    match rank {
        0 => Class::Upper,
        1 => Class::Lower,
        2 => Class::Caseless,
        3 => Class::Mark,
        4 => Class::Number,
        5 => Class::Whitespace,
        _ => Class::Other,
    }
}

// The rank of a class: its place in document 01's order, from 0 on.
pub fn rank_of(k: Class) -> u8
    ensures { result ≡ rank k }
{
    k as u8
}

// The class of the first of some rows that holds c, from the front.
#[tactic(auto, using(crate::proofs::Scan::row_holds, crate::proofs::Scan::row_past, crate::proofs::Scan::rows_end))]
fn scan_rows(rows: &[u32], c: u32) -> Option<Class>
    ensures { (k : ClassOf) → unwrap_or result k ≡ class_in (ranges_of rows.now) c k }
{
    for row in rows.chunks_exact(3) {
        if within(row[0], c, row[1]) {
            return Some(class_named(row[2]));
        }
    }
    None
}

// The class of c by the table that is lent, then by White_Space.
#[tactic(auto, unfolding(crate::specs::Rows::class_at))]
pub fn class_at(t: &[u32], c: u32) -> Class
    ensures { result ≡ class_at t.now c }
{
    match scan_rows(t, c) {
        Some(k) => k,
        None => scan_rows(white_rows(), c).unwrap_or(Class::Other),
    }
}

// The class of c by the table of the official ranges.
#[tactic(auto, using(crate::proofs::Scan::table_class))]
pub fn class_of_scalar(c: u32) -> Class
    ensures { result ≡ class_of c }
{
    class_at(table(), c)
}

// The class of any number, if it is a scalar value.
#[tactic(auto, unfolding(crate::specs::Classes::class_said))]
pub fn class_of(c: u32) -> Result<Class, NoScalar>
    ensures { answer result ≡ class_said c }
{
    if is_scalar(c) {
        Ok(class_of_scalar(c))
    } else {
        Err(NoScalar)
    }
}

// By the two ranges of the definition `scalar`, which wrong programs move one by one.
fn is_scalar(c: u32) -> bool
    ensures { result ≡ scalar c }
{
    c <= 0xd7ff || within(0xe000, c, 0x10ffff)
}

// Is this byte an ASCII character of the class Upper? None above 7F is; so for the tests below. The difference wrapped to eight bits is
// the form that the rules name.
#[tactic(auto, using(crate::proofs::Bytes::upper_test))]
pub fn is_upper_ascii(b: u8) -> bool
    ensures { result ≡ ascii_is Class.Upper b }
{
    b.wrapping_sub(b'A') < 26
}

// A letter of ASCII.
#[tactic(auto, using(crate::proofs::Bytes::letter_test))]
pub fn is_letter(b: u8) -> bool
    ensures { result ≡ ascii_letter b }
{
    b.is_ascii_alphabetic()
}

// An ASCII character of the class Number.
#[tactic(auto, using(crate::proofs::Bytes::digit_test))]
pub fn is_digit(b: u8) -> bool
    ensures { result ≡ ascii_is Class.Number b }
{
    b.is_ascii_digit()
}

// An ASCII character of the class Whitespace, by two tests: the library's has no vertical tab, and with one test more for it runs of white
// space took longer.
#[tactic(auto, using(crate::proofs::Bytes::white_test, crate::proofs::Bytes::blank_test))]
pub fn is_ascii_ws(b: u8) -> bool
    ensures { result ≡ ascii_is Class.Whitespace b }
{
    b == b' ' || within(9, u32::from(b), 13)
}
