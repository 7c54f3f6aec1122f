ghost use Rattle.std.specs.Prelude.{◌≡◌, ℕ, List, true};
ghost use Rattle.refusal.specs.Fault.{is_word};

use std::fmt::Display;

/// A refusal with the number and the name by which lines of text report it. A name has no space.
pub trait NumberedFault: Copy + Display {
    ghost code_and_name: { Self → ℕ × List ℕ };

    /// The number and the name by which lines of text report this refusal.
    fn code_and_name(self) -> (u16, &'static str)
        ensures code { result.0 ≡ (code_and_name self).0 }
        ensures name { result.1.now ≡ (code_and_name self).1 }
        ensures word { is_word (code_and_name self).1 ≡ true };

    /// The number by which lines of text report this refusal.
    final fn code(self) -> u16
        ensures { result ≡ (code_and_name self).0 }
    {
        self.code_and_name().0
    }

    /// The name by which lines of text report this refusal.
    final fn name(self) -> &'static str
        ensures { result.now ≡ (code_and_name self).1 }
    {
        self.code_and_name().1
    }
}
