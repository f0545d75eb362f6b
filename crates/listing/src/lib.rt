// The lines that the program writes for a sheet.
#![tactic(auto)]

ghost use Rattle.std.specs.Prelude.{◌≡◌, ◌+◌, ◌++◌, ◌≤◌, length};
ghost use Rattle.io.specs.Counts.{IsPrefixLen};
ghost use Rattle.listing.specs.Page.{HasRoom, Adds};
ghost use Rattle.listing.specs.Listing.{decimal, line, lines, ends_lines, refused_line, listing, on_front};

use pattern::Options;
use pretokenize::fill;

// The longest sheet that is listed, in bytes.
pub const SHEET_LIMIT: usize = 65536;

// Room for every listing: `ends 65536` in its line, and five digits and LF for each end.
pub const ROOM: usize = 393227;

// A lent buffer, and how many bytes of its front are written. The caller lends it, since nothing here allocates. What there must be room
// for is other bytes at each method, and so no fact of the type.
#[derive(Drop)]
struct Page<'a> {
    out: &'a mut [u8],
    len: usize,
}

impl Page<'_> {
    fn push(&mut self, bytes: &[u8])
        requires { HasRoom self.old bytes.now }
        ensures { Adds self.old bytes.now self.new }
    {
        let to = self.len + bytes.len();
        self.out[self.len..to].copy_from_slice(bytes);
        self.len = to;
    }

    #[tactic(auto, using(crate::proofs::Adding::digits_fit))]
    fn push_decimal(&mut self, n: u64)
        requires { HasRoom self.old (decimal n) }
        ensures { Adds self.old (decimal n) self.new }
    {
        // Nothing allocates: no number of 64 bits has more digits.
        let mut digits = [0u8; 20];
        let k = io::decimal(n, &mut digits);
        self.push(&digits[..k]);
    }

    // Some words and a number.
    fn push_words(&mut self, words: &[u8], n: u64)
        requires { HasRoom self.old (words.now ++ decimal n) }
        ensures { Adds self.old (words.now ++ decimal n) self.new }
    {
        self.push(words);
        self.push_decimal(n);
    }

    fn push_line(&mut self, words: &[u8], n: u64)
        requires { HasRoom self.old (line (words.now ++ decimal n)) }
        ensures { Adds self.old (line (words.now ++ decimal n)) self.new }
    {
        self.push_words(words, n);
        self.push(b"\n");
    }

    fn push_lines(&mut self, ns: &[u32])
        requires { HasRoom self.old (lines ns.now) }
        ensures { Adds self.old (lines ns.now) self.new }
    {
        for &n in ns {
            self.push_line(b"", u64::from(n));
        }
    }

    // How many ends there are, and the ends.
    #[tactic(auto, unfolding(crate::specs::Listing::ends_lines))]
    fn push_ends(&mut self, ends: &[u32])
        requires { HasRoom self.old (ends_lines ends.now) }
        ensures { Adds self.old (ends_lines ends.now) self.new }
    {
        self.push_line(b"ends ", ends.len() as u64);
        self.push_lines(ends);
    }

    #[tactic(auto, unfolding(crate::specs::Listing::refused_line))]
    fn push_refused(&mut self, number: u64, place: u64)
        requires { HasRoom self.old (refused_line number place) }
        ensures { Adds self.old (refused_line number place) self.new }
    {
        self.push_words(b"refused ", number);
        self.push_line(b" at ", place);
    }

    // The listing of a sheet. There is room for the longest.
    #[tactic(auto, using(crate::proofs::Listed::when_long, crate::proofs::Listed::refused_fits))]
    fn push_listing(&mut self, sheet: &[u8])
        requires { self.old.len + ROOM ≤ length self.old.out.now }
        ensures { Adds self.old (listing sheet.now) self.new }
    {
        if sheet.len() > SHEET_LIMIT {
            return self.push_refused(2, SHEET_LIMIT as u64);
        }
        // Nothing allocates: there is room for as many ends as the longest sheet has bytes.
        let mut ends = [0u32; SHEET_LIMIT];
        match fill(sheet, Options::o200k(), 0, &mut ends) {
            Ok(f) => self.push_ends(&ends[..f.count]),
            Err(r) => self.push_refused(u64::from(r.number()), r.place() as u64),
        }
    }
}

// Puts a sheet's listing at the front of `out`, and answers its length.
pub fn listing(sheet: &[u8], out: &mut [u8; ROOM]) -> usize
    ensures prefix_len { IsPrefixLen result out.new }
    ensures value { (result ≡ length (listing sheet.now)) × (out.new ≡ on_front (listing sheet.now) out.old) }
{
    let mut page = Page { out, len: 0 };
    page.push_listing(sheet);
    page.len
}
