// The program: cuts the sheet on its standard input under the o200k setting, and writes its listing.
// Nothing is written before the listing is whole, and nothing at all if the sheet could not be read.
#![tactic(auto)]

use listing::{ROOM, SHEET_LIMIT, listing};
use support::read_full;

// Tells of trouble on standard error. Where that cannot be written either, there is nobody to tell.
fn tell(rt: &impl Eprint, trouble: &str) {
    let _ = rt.eprintln(trouble);
}

fn write_listing(rt: &(impl Print + Eprint), sheet: &[u8]) {
    // Nothing allocates: every listing fits.
    let mut out = [0u8; ROOM];
    let n = listing(sheet, &mut out);
    if rt.write_all(&out[..n]).is_err() {
        tell(rt, "cutsheet: the listing could not be written");
    }
}

fn main(rt: HostRuntime) {
    // Nothing allocates. One byte more than the longest sheet, so that a longer one is seen.
    let mut sheet = [0u8; SHEET_LIMIT + 1];
    match read_full(&mut rt.stdin(), &mut sheet) {
        Ok(n) => write_listing(&rt, &sheet[..n]),
        Err(_) => tell(&rt, "cutsheet: the sheet could not be read"),
    }
}
