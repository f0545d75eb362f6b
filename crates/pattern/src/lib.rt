// The options that the pattern is adapted to.
#![tactic(auto)]

ghost use Rattle.std.specs.Prelude.{◌≡◌};
ghost use Rattle.pattern.specs.Pattern.{o200k};

// Contractions yes or no; digit mode 0 (one), 1 (three, from the left), 2 (three, from the right); slash in the tail yes or no.
// Any other digit mode is refused wherever the options are used (`fails_1` of pretokenize), so the mode is a number and no enum.
#[derive(Clone, Copy, Debug, PartialEq, Eq)]
pub struct Options {
    pub contractions: bool,
    pub digits: u8,
    pub slash: bool,
}

impl Options {
    // The named setting o200k.
    pub fn o200k() -> Options
        ensures { result ≡ o200k }
    {
        Options {
            contractions: true,
            digits: 1,
            slash: true,
        }
    }
}
