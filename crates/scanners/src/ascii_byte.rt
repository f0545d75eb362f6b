// A byte of ASCII, by the class of the character that it is.
ghost use Rattle.std.specs.Prelude.{◌<◌};

use classes::{is_ascii_ws, is_upper_ascii};

#[derive(Clone, Copy)]
pub struct Ascii {
    pub byte: u8,
    pub ghost low: { byte < 0x80 },
}

impl Ascii {
    ghost use Rattle.std.specs.Prelude.{◌≡◌};
    ghost use Rattle.classes.specs.Classes.{class_of, same, is_letter as letter};
    ghost use Rattle.classes.specs.declared.Class.TheVariants.{Upper, Number, Whitespace};
    ghost use Rattle.pattern.proofs.Step.{punct};

    #[tactic(auto, using(crate::proofs::Ascii::class_test))]
    pub fn is_upper(self) -> bool
        ensures { result ≡ same Upper (class_of self.byte) }
    {
        is_upper_ascii(self.byte)
    }

    #[tactic(auto, using(crate::proofs::Ascii::letter_test))]
    pub fn is_letter(self) -> bool
        ensures { result ≡ letter (class_of self.byte) }
    {
        classes::is_letter(self.byte)
    }

    #[tactic(auto, using(crate::proofs::Ascii::class_test))]
    pub fn is_digit(self) -> bool
        ensures { result ≡ same Number (class_of self.byte) }
    {
        classes::is_digit(self.byte)
    }

    #[tactic(auto, using(crate::proofs::Ascii::class_test))]
    pub fn is_white(self) -> bool
        ensures { result ≡ same Whitespace (class_of self.byte) }
    {
        is_ascii_ws(self.byte)
    }

    // No letter, no digit and no white space.
    #[tactic(auto, using(crate::proofs::Classes::letter_no_punct, crate::proofs::Classes::number_no_punct, crate::proofs::Classes::not_white), unfolding(pattern::specs::Regex::holds))]
    pub fn is_punct(self) -> bool
        ensures { result ≡ punct self.byte }
    {
        !self.is_letter() && !self.is_digit() && !self.is_white()
    }
}
