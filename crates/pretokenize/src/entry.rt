// The entry points: each makes the checks first, in their order, and hands a refusal on whole.
ghost use Rattle.std.specs.Prelude.{◌≡◌, ◌+◌, ◌<◌, ◌≤◌, length};
ghost use Rattle.utf8.specs.Utf8.{chars, Valid, char_start, within};
ghost use Rattle.pattern.specs.Answers.{checks, next_end, token_bytes, fill, fill_list};
ghost use Rattle.scanners.specs.Place.{Whole};
ghost use Rattle.scanners.specs.Scan.{Known, Advanced};
ghost use Rattle.pretokenize.specs.declared.entry.Refusal.TheVariants.{Damaged};
ghost use Rattle.pretokenize.specs.Entry.{number, place, verdict, said, filled, token_place, step_end, moved_by, moved};

use pattern::Options;
use scanners::{Advance, advance_pos};
use utf8::{BadAt, byte_at, check, within};

// The longest text that is taken, in bytes.
const LIMIT: usize = 1048576;

// Why a call is refused, with the place where it depends on the call.
#[derive(Clone, Copy, Debug, PartialEq, Eq)]
pub enum Refusal {
    Mode,
    Long,
    Damaged(usize),
    Past(usize),
    Inside(usize),
}

impl Refusal {
    // The number of the refusal in document 01's table, which other languages are given too.
    pub fn number(self) -> u32
        ensures { result ≡ number self }
    {
        match self {
            Refusal::Mode => 1,
            Refusal::Long => 2,
            Refusal::Damaged(_) => 3,
            Refusal::Past(_) => 4,
            Refusal::Inside(_) => 5,
        }
    }

    // The place that the table gives with it, for other languages too.
    pub fn place(self) -> usize
        ensures { result ≡ place self }
    {
        match self {
            Refusal::Mode => 0,
            Refusal::Long => LIMIT,
            Refusal::Damaged(p) | Refusal::Past(p) | Refusal::Inside(p) => p,
        }
    }
}

impl From<BadAt> for Refusal {
    ghost from_gives = { λ bad r. r ≡ Damaged bad.0 };

    fn from(bad: BadAt) -> Refusal {
        Refusal::Damaged(bad.0)
    }
}

// Where a token ends; or that the text has ended, with its length.
#[derive(Clone, Copy, Debug, PartialEq, Eq)]
pub enum NextEnd {
    At(usize),
    End(usize),
}

// How many ends were written, and where the next token begins.
#[derive(Clone, Copy, Debug, PartialEq, Eq)]
pub struct Filled {
    pub count: usize,
    pub next: usize,
}

// A walk of a text: its options, and where its next token begins.
#[derive(Clone, Copy, Debug, PartialEq, Eq)]
pub struct Walker {
    pub options: Options,
    pub at: usize,
}

// What a step of a walk answers, and the walker after it.
#[derive(Clone, Copy, Debug, PartialEq, Eq)]
pub struct Step {
    pub answer: Result<NextEnd, Refusal>,
    pub walker: Walker,
}

// Does this byte continue a character?
fn continues(b: u8) -> bool
    ensures { result ≡ within 0x80 b 0xbf }
{
    within(0x80, u32::from(b), 0xbf)
}

// The place of the first byte of the character that a place of a checked text is in.
#[tactic(auto, using(utf8::proofs::Place::continues_at, utf8::proofs::Place::start_back, utf8::proofs::Place::start_le))]
fn char_start(text: &[u8], at: usize) -> usize
    requires { Valid text.now × (at ≤ length text.now) }
    ensures { result ≡ char_start (chars text.now) at }
{
    for i in (1..=at).rev() {
        if !continues(byte_at(text, i)) {
            return i;
        }
    }
    0
}

// The checks, in their order: the first that fails is the refusal. Here and below the text, the options and the start stand apart, as
// the documents and the C interface name them.
#[tactic(auto, using(crate::proofs::Checks::rows))]
pub fn checked(text: &[u8], o: Options, start: usize) -> Result<(), Refusal>
    ensures { verdict result ≡ checks o text.now start }
{
    if o.digits > 2 {
        return Err(Refusal::Mode);
    }
    if text.len() > LIMIT {
        return Err(Refusal::Long);
    }
    check(text)?;
    if start > text.len() {
        return Err(Refusal::Past(text.len()));
    }
    let first = char_start(text, start);
    if first < start {
        return Err(Refusal::Inside(first));
    }
    Ok(())
}

// The token in front of some checked text, where so many whole groups of three digits are known to stand there: one of them is what
// digit mode 1 takes. A count of 0 says all that None would: that none is known.
fn next_token(bytes: &[u8], o: Options, groups: usize) -> Advance
    requires whole { Whole bytes.now 0 }
    requires bytes_nonzero { 0 < length bytes.now }
    requires known { Known o (chars bytes.now) groups }
    ensures { Advanced o (chars bytes.now) result.len result.groups }
{
    let digits = if groups > 0 { 1 } else { o.digits };
    let a = advance_pos(bytes, Options { digits, ..o });
    Advance {
        len: a.len,
        groups: if groups > 0 { groups - 1 } else { a.groups },
    }
}

// The ends of the tokens from a start on, as many as there is room and text for. On a refusal `ends` stays as it was.
pub fn fill(text: &[u8], o: Options, start: usize, ends: &mut [u32]) -> Result<Filled, Refusal>
    ensures { (filled start result ≡ fill o text.now start (length ends.old)) × (ends.new ≡ fill_list o text.now start ends.old) }
{
    checked(text, o, start)?;
    let mut at = start;
    let mut groups = 0;
    for (count, end) in ends.iter_mut().enumerate() {
        if at == text.len() {
            return Ok(Filled { count, next: at });
        }
        let a = next_token(&text[at..], o, groups);
        at += a.len;
        groups = a.groups;
        *end = at as u32;
    }
    Ok(Filled {
        count: ends.len(),
        next: at,
    })
}

// The end of the token at a start, that the text has ended there, or the refusal: what a fill with room for one end finds.
pub fn next_end(text: &[u8], o: Options, start: usize) -> Result<NextEnd, Refusal>
    ensures { said result ≡ next_end o text.now start }
{
    let mut one = [0u32; 1];
    let f = fill(text, o, start, &mut one)?;
    if f.next == start {
        return Ok(NextEnd::End(start));
    }
    Ok(NextEnd::At(f.next))
}

// The bytes of the token at a start, the caller's own; none at the end of the text or on a refusal.
#[tactic(auto, using(pattern::proofs::Edges::next_in), unfolding(pattern::specs::Answers::token_bytes, crate::specs::Entry::token_place))]
pub fn token(text: &[u8], o: Options, start: usize) -> &[u8]
    ensures { (result.now ≡ token_bytes o text.now start) × (result.ref_ptr ≡ (text.entry.ref_ptr.0, token_place o text.now start + text.entry.ref_ptr.1)) }
{
    match next_end(text, o, start) {
        Ok(NextEnd::At(e)) => &text[start..e],
        Ok(NextEnd::End(_)) | Err(_) => &text[0..0],
    }
}

impl Walker {
    // The walker after an answer: at the token's end; where it stood, at the end of the text or on a refusal.
    fn moved_by(self, answer: Result<NextEnd, Refusal>) -> Walker
        ensures { result ≡ moved_by self (said answer) }
    {
        match answer {
            Ok(NextEnd::At(at)) => Walker { at, ..self },
            Ok(NextEnd::End(_)) | Err(_) => self,
        }
    }

    // One token on: the answer of `next_end` at the walker's place, and the walker at the token's end; at the end of the text or on
    // a refusal it comes back unmoved.
    pub fn step(self, text: &[u8]) -> Step
        ensures { (said result.answer ≡ step_end self text.now) × (result.walker ≡ moved self text.now) }
    {
        let answer = next_end(text, self.options, self.at);
        let walker = self.moved_by(answer);
        Step { answer, walker }
    }

    // The same step, with the walker lent and moved in place: callers have both forms.
    pub fn step_in_place(&mut self, text: &[u8]) -> Result<NextEnd, Refusal>
        ensures { (said result ≡ step_end self.old text.now) × (self.new ≡ moved self.old text.now) }
    {
        let s = self.step(text);
        *self = s.walker;
        s.answer
    }
}
