// Compares the class of every value with a list that tools/class_runs makes from the official files by another way than the table.
// It writes the count of each class, or the first value that differs.
#![tactic(auto)]

ghost use Rattle.std.specs.Prelude.{◌≤◌, ◌<◌, IfSome};

use classes::{Class, NoScalar};
use std::io;
use support::{hex_digit, read_full};

// Past the last value.
const END: u32 = 0x110000;

// What is counted, in the order of the counts: the seven classes by their rank, and what has none. The names are constant and the counts
// are summed, so that they stand apart.
const NAMES: [&str; 8] = [
    "Upper",
    "Lower",
    "Caseless",
    "Mark",
    "Number",
    "Whitespace",
    "Other",
    "refused",
];

// A run of the list: what its values are, and the value after its last.
#[derive(Clone, Copy)]
struct Run {
    class: Result<Class, NoScalar>,
    to: u32,
}

// What a letter of the list stands for. The list is a format of its own: no conversion reads its letters or its six digits in lower case, and
// what has no class has a count too.
fn class_of_letter(b: u8) -> Option<Result<Class, NoScalar>> {
    match b {
        b'U' => Some(Ok(Class::Upper)),
        b'L' => Some(Ok(Class::Lower)),
        b'C' => Some(Ok(Class::Caseless)),
        b'M' => Some(Ok(Class::Mark)),
        b'N' => Some(Ok(Class::Number)),
        b'W' => Some(Ok(Class::Whitespace)),
        b'O' => Some(Ok(Class::Other)),
        b'S' => Some(Err(NoScalar)),
        _ => None,
    }
}

// The number of some hex digits of the list, if it is not past the last value.
fn number(digits: &[u8]) -> Option<u32>
    ensures { IfSome result (λ n. n ≤ END) }
{
    let mut n = 0;
    for &b in digits {
        n = n * 16 + u32::from(hex_digit(b)?);
        if n > END {
            return None;
        }
    }
    Some(n)
}

// The run of a line, which begins with the value `from`. A damaged line has none, nor does one without a value.
fn run_of(line: &[u8], from: u32) -> Option<Run>
    requires { from ≤ END }
    ensures { IfSome result (λ run. (from < run.to) × (run.to ≤ END)) }
{
    let [letter, digits @ .., b'\n'] = line else {
        return None;
    };
    let class = class_of_letter(*letter)?;
    let n = number(digits)?;
    if digits.len() != 6 || n == 0 || n > END - from {
        return None;
    }
    Some(Run {
        class,
        to: from + n,
    })
}

// The first value of a run whose class is not the run's. The entry point is asked of the first value, and of each that has no class. It stands
// apart: as a part of `main` its loop over the rows lies where it takes two thirds as much time again.
#[inline(never)]
fn first_other(run: Run, from: u32) -> Option<u32> {
    if classes::class_of(from) != run.class {
        return Some(from);
    }
    match run.class {
        Ok(k) => (from..run.to).find(|c| classes::class_of_scalar(*c) != k),
        Err(NoScalar) => (from..run.to).find(|c| classes::class_of(*c).is_ok()),
    }
}

// The first of three numbers past the last value that is not refused.
fn first_taken() -> Option<u32> {
    [0x110000, 0x110001, 0xffffffff]
        .into_iter()
        .find(|c| classes::class_of(*c).is_ok())
}

fn damaged(rt: &impl Print) -> io::Result<()> {
    rt.println("the list is damaged")
}

fn differs(rt: &impl Print, c: u32) -> io::Result<()> {
    println!(rt; "differs at {c:04x}")
}

// The place of a run's count, in the order of the names.
fn place(class: Result<Class, NoScalar>) -> usize
    ensures { result < 8 }
{
    match class {
        Ok(k) => usize::from(classes::rank_of(k)),
        Err(NoScalar) => 7,
    }
}

fn report(rt: &impl Print, counts: &[u64], compared: u64) -> io::Result<()> {
    for (name, n) in NAMES.iter().zip(counts) {
        println!(rt; "{name} {n}")?;
    }
    println!(rt; "compared {compared}")
}

// Compares all values with the list. Three numbers were refused before.
fn compare(rt: &impl Print, list: &[u8]) -> io::Result<()> {
    let mut counts = [0u64, 0, 0, 0, 0, 0, 0, 3];
    let mut from = 0;
    for line in list.chunks(8) {
        let Some(run) = run_of(line, from) else {
            return damaged(rt);
        };
        if let Some(c) = first_other(run, from) {
            return differs(rt, c);
        }
        counts[place(run.class)] += u64::from(run.to - from);
        from = run.to;
    }
    if from < END {
        return damaged(rt);
    }
    report(rt, &counts, 0x110003 - counts[7])
}

fn main(rt: HostRuntime) -> io::Result<()> {
    // Nothing allocates: there is room for the whole list.
    let mut list = [0u8; 65536];
    let n = read_full(&mut rt.stdin(), &mut list)?;
    if let Some(c) = first_taken() {
        return differs(&rt, c);
    }
    compare(&rt, &list[..n])
}
