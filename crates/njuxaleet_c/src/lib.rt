// The static library that C links: each export is the function of its name of njuxaleet, with its clauses, since a crate is a library or a
// static library.
#![tactic(auto)]

ghost use Rattle.std.specs.Prelude.{◌≡◌, length};
ghost use Rattle.classes.specs.Classes.{class_said};
ghost use Rattle.pattern.specs.Answers.{next_end, fill, fill_list};
ghost use Rattle.njuxaleet.specs.Exports.{options, end_number, end_place, found_number, fill_place, class_number, class_rank};

// Puts the end of the token at `start` into `at`: `start` itself at the end of the text, and on a refusal its place.
#[unsafe(no_mangle)]
pub extern "C" fn njuxaleet_next_end(
    text: &[u8],
    contractions: bool,
    digits: u8,
    slash: bool,
    start: usize,
    at: &mut usize,
) -> u32
    ensures { (result ≡ end_number (next_end (options contractions digits slash) text.now start)) × (at.new ≡ end_place (next_end (options contractions digits slash) text.now start)) }
{
    njuxaleet::njuxaleet_next_end(text, contractions, digits, slash, start, at)
}

// Writes the ends of the tokens from `start` on, as many as there is room and text for, their count, and into `at` the next start.
// On a refusal nothing is written to `ends`, the count is 0, and `at` is the refusal's place.
#[unsafe(no_mangle)]
pub extern "C" fn njuxaleet_fill(
    text: &[u8],
    contractions: bool,
    digits: u8,
    slash: bool,
    start: usize,
    ends: &mut [u32],
    count: &mut usize,
    at: &mut usize,
) -> u32
    ensures value { result ≡ found_number (fill (options contractions digits slash) text.now start (length ends.old)).found }
    ensures count_after { count.new ≡ (fill (options contractions digits slash) text.now start (length ends.old)).count }
    ensures at_after { at.new ≡ fill_place (fill (options contractions digits slash) text.now start (length ends.old)) }
    ensures ends_after { ends.new ≡ fill_list (options contractions digits slash) text.now start ends.old }
{
    njuxaleet::njuxaleet_fill(text, contractions, digits, slash, start, ends, count, at)
}

// Puts the rank of a scalar value's class into `class`; of any other number, refusal 6 and the rank 0.
#[unsafe(no_mangle)]
pub extern "C" fn njuxaleet_class_of(c: u32, class: &mut u32) -> u32
    ensures { (result ≡ class_number (class_said c)) × (class.new ≡ class_rank (class_said c)) }
{
    njuxaleet::njuxaleet_class_of(c, class)
}
