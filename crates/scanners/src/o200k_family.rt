// The o200k family's scanners, after the module of this name in gigatoken, its part "Scalar ground truth" with HAN false.
//
// Each is given a place in the part of a checked text from a token's start on, and answers places in that part. Const parameters
// of the Rust are values here, and what the Rust changes in place is handed back anew. `advance_pos` is a choice by the first
// character and then one scanner, each called from one place.
ghost use Rattle.std.specs.Prelude.{◌≡◌, ◌+◌, ◌/◌, ◌%◌, ◌^◌, ◌≤◌, ◌<◌, min, length};
ghost use Rattle.std.specs.List.{prefix_len};
ghost use Rattle.utf8.specs.Utf8.{chars, width};
ghost use Rattle.classes.specs.Classes.{class_of};
ghost use Rattle.classes.specs.declared.Class.TheVariants.{Upper as UpperClass, Caseless as CaselessClass};
ghost use Rattle.pattern.specs.Regex.{run};
ghost use Rattle.pattern.proofs.Step.{newline, number, punct, space_end, tail};
ghost use Rattle.scanners.specs.Place.{Whole};
ghost use Rattle.scanners.specs.Rest.{rest};
ghost use Rattle.scanners.specs.Scan.{span, run_width, suffix_width, is_of, in_kind, ended, ascii_state, moved, turned, finish, case_stop, white_stop, aligned_end, Digits, Advanced};
ghost use Rattle.scanners.specs.Start.{prefixed_start, space_start, space_before, after_space, first_start, start_of};
ghost use Rattle.scanners.specs.Suffix.{lowered, row_fits, row_width, first_row, suffix_rows};

use crate::ascii_byte::Ascii;
use crate::place::{Peek, Place};
use classes::Class;
use pattern::Options;
use utf8::byte_at;

// The characters of which runs are passed over, other than letters. The two tests of a kind stand side by side below, which two closures
// would not.
#[derive(Clone, Copy, Debug, PartialEq, Eq)]
enum Kind {
    Number,
    White,
    Punct,
}

impl Kind {
    // Is this class one of the kind?
    fn has(self, k: Class) -> bool
        ensures { result ≡ is_of self k }
    {
        match self {
            Kind::Number => k == Class::Number,
            Kind::White => k == Class::Whitespace,
            Kind::Punct => matches!(k, Class::Mark | Class::Other),
        }
    }

    // Is this byte of ASCII a character of the kind?
    fn has_ascii(self, b: Ascii) -> bool
        ensures { result ≡ in_kind self b.byte }
    {
        match self {
            Kind::Number => b.is_digit(),
            Kind::White => b.is_white(),
            Kind::Punct => b.is_punct(),
        }
    }
}

// The state of a letter run. `U`: no lower-case letter yet; `last_cl_end` is the end of the last caseless letter or mark. `L`:
// past a lower-case letter, where an upper-case one ends the token.
#[derive(Clone, Copy, Debug, PartialEq, Eq)]
enum CaseState {
    U { last_cl_end: Option<usize> },
    L,
}

// Before the first letter.
const BEFORE_LETTERS: CaseState = CaseState::U { last_cl_end: None };

// A letter run as far as it was passed over: where its last character ends, and its state there.
#[derive(Clone, Copy, Debug, PartialEq, Eq)]
struct LetterRun {
    end: usize,
    state: CaseState,
}

impl CaseState {
    // A letter run past a character of a class that ends at a place, unless that ends the run.
    fn moved(self, k: Class, end: usize) -> Option<LetterRun>
        ensures { result ≡ moved k self end }
    {
        match k {
            Class::Upper => self.past_upper(end),
            Class::Lower => Some(LetterRun {
                end,
                state: CaseState::L,
            }),
            Class::Caseless | Class::Mark => Some(self.past_caseless(end)),
            Class::Number | Class::Whitespace | Class::Other => None,
        }
    }

    fn past_upper(self, end: usize) -> Option<LetterRun>
        ensures { result ≡ moved UpperClass self end }
    {
        match self {
            CaseState::U { .. } => Some(LetterRun { end, state: self }),
            CaseState::L => None,
        }
    }

    fn past_caseless(self, end: usize) -> LetterRun
        ensures { Some result ≡ moved CaselessClass self end }
    {
        let state = match self {
            CaseState::U { .. } => CaseState::U {
                last_cl_end: Some(end),
            },
            CaseState::L => CaseState::L,
        };
        LetterRun { end, state }
    }

    // The same past an ASCII byte.
    fn past_ascii(self, b: Ascii, end: usize) -> Option<LetterRun>
        ensures { result ≡ moved (class_of b.byte) self end }
    {
        if b.is_upper() {
            return self.past_upper(end);
        }
        b.is_letter().then_some(LetterRun {
            end,
            state: CaseState::L,
        })
    }

    // Where the token ends if the letter run ends at a place: a run of upper case goes back to its last caseless letter or mark.
    fn finish(self, pos: usize) -> usize
        ensures { result ≡ finish self pos }
    {
        match self {
            CaseState::U { last_cl_end } => last_cl_end.unwrap_or(pos),
            CaseState::L => pos,
        }
    }
}

// Which scanner a token is for, and from where. `One` is a space that stands alone. It is data, since a function may not hand out the
// scanner itself as a closure.
#[derive(Clone, Copy, Debug, PartialEq, Eq)]
enum Start {
    Letters(LetterRun),
    Punct(usize),
    White,
    Number(usize),
    One,
}

// A token's length, and how many whole groups of three are left of its run of digits in digit mode 2.
#[derive(Clone, Copy, Debug, PartialEq, Eq)]
pub struct Advance {
    pub len: usize,
    pub groups: usize,
}

fn is_newline(b: u8) -> bool
    ensures { result ≡ newline b }
{
    b == b'\r' || b == b'\n'
}

// Is this byte in the tail of a punctuation token?
fn is_tail_byte(b: u8, slash: bool) -> bool
    ensures { result ≡ tail slash b }
{
    is_newline(b) || slash && b == b'/'
}

// The end of the character at a place, if one of the kind stands there.
fn kind_end(at: Place, kind: Kind) -> Option<usize>
    ensures { result ≡ ended (in_kind kind) at.entry.pos (rest at.entry) }
{
    match at.peek_at()? {
        Peek::Ascii(b) => kind.has_ascii(b).then_some(at.pos + 1),
        Peek::Wide(c) => kind.has(c.class).then_some(c.end),
    }
}

#[tactic(auto, using(crate::proofs::Lowered::lowered_is))]
fn to_ascii_lowercase(b: u8) -> u8
    ensures { result ≡ lowered b }
{
    b.to_ascii_lowercase()
}

// A row of the suffix table: the byte after the apostrophe, a letter in lower case, and the next one where there are two.
#[derive(Clone, Copy, Debug, PartialEq, Eq)]
struct Suffix(u8, Option<u8>);

// The last row is U+017F.
static SUFFIXES: [Suffix; 8] = [
    Suffix(b's', None),
    Suffix(b't', None),
    Suffix(b'r', Some(b'e')),
    Suffix(b'v', Some(b'e')),
    Suffix(b'm', None),
    Suffix(b'l', Some(b'l')),
    Suffix(b'd', None),
    Suffix(0xc5, Some(0xbf)),
];

impl Suffix {
    // Is it in front of these two bytes, letters in lower case?
    fn fits(self, b: u8, d: u8) -> bool
        ensures { result ≡ row_fits self b d }
    {
        b == self.0 && self.1.is_none_or(|second| d == second)
    }

    // How many bytes it takes with its apostrophe.
    fn width(self) -> usize
        ensures { result ≡ row_width self }
    {
        if self.1.is_some() { 3 } else { 2 }
    }
}

#[tactic(auto, unfolding(crate::specs::Suffix::suffix_rows))]
fn suffixes() -> &'static [Suffix]
    ensures { result.now ≡ suffix_rows }
{
    &SUFFIXES
}

// How many bytes the suffix takes that has these two bytes after its apostrophe, letters in lower case.
#[tactic(auto, using(crate::proofs::Suffix::row_here, crate::proofs::Suffix::row_next, crate::proofs::Suffix::rows_end))]
fn suffix_row(b: u8, d: u8) -> Option<usize>
    ensures { result ≡ first_row suffix_rows b d }
{
    for row in suffixes() {
        if row.fits(b, d) {
            return Some(row.width());
        }
    }
    None
}

// The end of the letter token that ends at a place, with its suffix where contractions are on. A byte past the end is 0, which no
// suffix has.
fn try_suffix(at: Place, contractions: bool) -> usize
    ensures { result ≡ at.entry.pos + suffix_width contractions (rest at.entry) }
{
    let Place { bytes, pos: end } = at;
    if !contractions || byte_at(bytes, end) != b'\'' {
        return end;
    }
    let b = to_ascii_lowercase(byte_at(bytes, end + 1));
    let d = to_ascii_lowercase(byte_at(bytes, end + 2));
    end + suffix_row(b, d).unwrap_or(0)
}

// The tail of a punctuation token, by bytes alone.
fn scan_tail(at: Place, slash: bool) -> usize
    ensures { result ≡ at.entry.pos + run_width (tail slash) (rest at.entry) }
{
    at.pos + tail_len(&at.bytes[at.pos..], slash)
}

// How many bytes in front are in the tail.
fn tail_len(rest: &[u8], slash: bool) -> usize
    ensures { result ≡ prefix_len (tail slash) rest.now }
{
    rest.iter().take_while(|b| is_tail_byte(**b, slash)).count()
}

// A run of punctuation.
fn scan_punct_from(mut at: Place) -> usize
    ensures { result ≡ at.entry.pos + run_width punct (rest at.entry) }
{
    while let Some(e) = kind_end(at, Kind::Punct) {
        at.pos = e;
    }
    at.pos
}

// The state of a letter run past its first letter, an ASCII one.
#[tactic(auto, using(crate::proofs::Ascii::class_test))]
fn ascii_letter_state(b: Ascii) -> CaseState
    ensures { result ≡ ascii_state b.byte }
{
    if b.is_upper() {
        CaseState::U { last_cl_end: None }
    } else {
        CaseState::L
    }
}

// A letter run past the character at a place, unless that ends the run.
fn case_turn(at: Place, st: CaseState) -> Option<LetterRun>
    ensures { result ≡ turned st at.entry.pos (rest at.entry) }
{
    match at.peek_at()? {
        Peek::Ascii(b) => st.past_ascii(b, at.pos + 1),
        Peek::Wide(c) => st.moved(c.class, c.end),
    }
}

// The letter run past its first character, if a letter or a mark stands at the place.
fn letter_run_first(at: Place) -> Option<LetterRun>
    ensures { result ≡ turned (CaseState.U None) at.entry.pos (rest at.entry) }
{
    case_turn(at, BEFORE_LETTERS)
}

// The rest of a letter run.
fn scan_case_run(mut at: Place, mut st: CaseState) -> usize
    ensures { result ≡ case_stop st at.entry.pos (rest at.entry) }
{
    while let Some(run) = case_turn(at, st) {
        at.pos = run.end;
        st = run.state;
    }
    st.finish(at.pos)
}

// Where a white-space token ends: `nl` is the end of its last CR or LF, `p` the end of its run, and `last` the start of its last
// character. That is a place, as in the Rust, and no Option: a character at the token's start, 0, is not given back either. Whether
// the run is over at the end of the text is a fact that `white_stop` takes.
fn ws_stop(over: bool, nl: Option<usize>, last: usize, p: usize) -> usize
    ensures { result ≡ white_stop over nl last p }
{
    match nl {
        Some(end) => end,
        None if over || last == 0 => p,
        None => last,
    }
}

// A token of white space: through its last CR or LF; else all of it at the end of the text, and all but its last character, if
// it has more than one, before anything else.
fn ws_token_end(mut at: Place) -> usize
    requires { at.pos ≡ 0 }
    ensures { result ≡ span (space_end (chars at.entry.bytes.now)) (chars at.entry.bytes.now) }
{
    let mut last_nl_end = None;
    let mut last_char_start = 0;
    while let Some(e) = kind_end(at, Kind::White) {
        if is_newline(byte_at(at.bytes, at.pos)) {
            last_nl_end = Some(e);
        }
        last_char_start = at.pos;
        at.pos = e;
    }
    ws_stop(
        at.pos == at.bytes.len(),
        last_nl_end,
        last_char_start,
        at.pos,
    )
}

// The end of the number character at a place, if one stands there.
fn number_end(at: Place) -> Option<usize>
    ensures { result ≡ ended number at.entry.pos (rest at.entry) }
{
    kind_end(at, Kind::Number)
}

// Up to two more number characters.
fn scan_numbers_max3(at: Place) -> usize
    ensures { let cs = rest at.entry in
        result ≡ at.entry.pos + span (min (run number cs) 2) cs }
{
    let Place { bytes, pos } = at;
    let Some(e) = number_end(at) else {
        return pos;
    };
    number_end(Place { bytes, pos: e }).unwrap_or(e)
}

// How many number characters stand unbroken: the count itself is the answer.
fn count_numbers(mut at: Place) -> usize
    ensures { result ≡ run number (rest at.entry) }
{
    let mut n = 0;
    while let Some(e) = number_end(at) {
        at.pos = e;
        n += 1;
    }
    n
}

// A token of a run of digits that is grouped from the right. The run is counted once: past this token it has a whole number of
// groups, which are handed on.
fn right_aligned_digit_end(first: Place) -> Advance
    requires { ended number 0 (chars first.bytes.now) ≡ Some first.pos }
    ensures { Digits 2 (chars first.entry.bytes.now) result.len result.groups }
{
    let bytes = first.bytes;
    let Some(second) = number_end(first) else {
        return plain(first.pos);
    };
    let Some(third) = number_end(Place { bytes, pos: second }) else {
        return plain(second);
    };
    let more = count_numbers(Place { bytes, pos: third });
    aligned(first.pos, second, third, more)
}

// By how many numbers follow the third: the ends of the first three are those of a token of one, two and three.
fn aligned(first: usize, second: usize, third: usize, more: usize) -> Advance
    requires { more + 2 < 2 ^ 64 }
    ensures { (result.len ≡ aligned_end first second third (more % 3)) × (result.groups ≡ (more + 2) / 3) }
{
    let len = match more % 3 {
        0 => third,
        1 => first,
        _ => second,
    };
    Advance {
        len,
        groups: (more + 2) / 3,
    }
}

// A token of a run of digits whose first ends at `first`, by digit mode, which is a number as in the options.
fn digit_token_end(first: Place, digits: u8) -> Advance
    requires { ended number 0 (chars first.bytes.now) ≡ Some first.pos }
    ensures { Digits digits (chars first.entry.bytes.now) result.len result.groups }
{
    match digits {
        0 => plain(first.pos),
        1 => plain(scan_numbers_max3(first)),
        _ => right_aligned_digit_end(first),
    }
}

// Past a prefix that ends at a place: a letter run, or what the prefix is by itself, white space if it is blank. That is a fact which the
// definition takes, so that one law serves both.
fn prefixed_start(at: Place, blank: bool) -> Start
    ensures { result ≡ prefixed_start blank at.entry.pos (rest at.entry) }
{
    match letter_run_first(at) {
        Some(run) => Start::Letters(run),
        None if blank => Start::White,
        None => Start::Punct(at.pos),
    }
}

// Past a space, before a character of a class that ends at a place and opens no letter run.
fn space_before(k: Class, end: usize) -> Start
    ensures { result ≡ space_before k end }
{
    match k {
        Class::Number => Start::One,
        Class::Whitespace => Start::White,
        _ => Start::Punct(end),
    }
}

fn space_wide(k: Class, end: usize) -> Start
    ensures { result ≡ space_start k end }
{
    match BEFORE_LETTERS.moved(k, end) {
        Some(run) => Start::Letters(run),
        None => space_before(k, end),
    }
}

fn space_ascii(b: Ascii, end: usize) -> Start
    ensures { result ≡ space_start (class_of b.byte) end }
{
    if b.is_letter() {
        return Start::Letters(LetterRun {
            end,
            state: ascii_letter_state(b),
        });
    }
    if b.is_digit() {
        return Start::One;
    }
    if b.is_white() {
        return Start::White;
    }
    Start::Punct(end)
}

// Past a space in front.
fn after_space(at: Place) -> Start
    requires { at.pos ≡ 1 }
    ensures { result ≡ after_space (rest at.entry) }
{
    match at.peek_at() {
        None => Start::One,
        Some(Peek::Ascii(b)) => space_ascii(b, at.pos + 1),
        Some(Peek::Wide(c)) => space_wide(c.class, c.end),
    }
}

// A token that begins with an ASCII byte, from the place past it.
fn ascii_start(b: Ascii, at: Place) -> Start
    requires { at.pos ≡ 1 }
    ensures { result ≡ first_start (class_of b.byte) b.byte (rest at.entry) }
{
    if b.is_letter() {
        return Start::Letters(LetterRun {
            end: at.pos,
            state: ascii_letter_state(b),
        });
    }
    if b.byte == b' ' {
        return after_space(at);
    }
    if b.is_digit() {
        return Start::Number(at.pos);
    }
    if is_newline(b.byte) {
        return Start::White;
    }
    prefixed_start(at, b.is_white())
}

// A token that begins with a character outside ASCII, from the place past it.
fn wide_start(cp: u32, k: Class, at: Place) -> Start
    requires { (0x80 ≤ cp) × (at.pos ≡ width cp) × (k ≡ class_of cp) }
    ensures { result ≡ first_start (class_of cp) cp (rest at.entry) }
{
    if let Some(run) = BEFORE_LETTERS.moved(k, at.pos) {
        return Start::Letters(run);
    }
    if Kind::Number.has(k) {
        return Start::Number(at.pos);
    }
    prefixed_start(at, Kind::White.has(k))
}

// Which scanner the token in front is for, and from where.
fn start_of(start: Place) -> Start
    requires { start.pos ≡ 0 }
    ensures { result ≡ start_of (rest start.entry) }
{
    let bytes = start.bytes;
    match start.peek_at() {
        None => Start::One,
        Some(Peek::Ascii(b)) => ascii_start(b, Place { bytes, pos: 1 }),
        Some(Peek::Wide(c)) => wide_start(c.cp, c.class, Place { bytes, pos: c.end }),
    }
}

// The token in front of some checked text: its length, and the groups that it leaves of a run of digits.
pub fn advance_pos(bytes: &[u8], o: Options) -> Advance
    requires whole { Whole bytes.now 0 }
    requires bytes_nonzero { 0 < length bytes.now }
    ensures { Advanced o (chars bytes.now) result.len result.groups }
{
    let start = Place { bytes, pos: 0 };
    match start_of(start) {
        Start::Letters(run) => {
            let end = scan_case_run(
                Place {
                    bytes,
                    pos: run.end,
                },
                run.state,
            );
            plain(try_suffix(Place { bytes, pos: end }, o.contractions))
        }
        Start::Punct(e) => {
            let end = scan_punct_from(Place { bytes, pos: e });
            plain(scan_tail(Place { bytes, pos: end }, o.slash))
        }
        Start::White => plain(ws_token_end(start)),
        Start::Number(e) => digit_token_end(Place { bytes, pos: e }, o.digits),
        Start::One => plain(1),
    }
}

// A token that leaves no groups of digits.
fn plain(len: usize) -> Advance
    ensures { (result.len ≡ len) × (result.groups ≡ 0) }
{
    Advance { len, groups: 0 }
}
