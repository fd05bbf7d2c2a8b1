// What a comparison found.
ghost use Rattle.std.specs.Prelude.{◌≡◌, ◌≢◌, ◌+◌, ◌-◌, ◌^◌, min, if◌then◌else◌, Some};
ghost use Rattle.comparing.specs.Texts.{finding_text};

use std::fmt;

/// Counts of what was compared; each stays at the highest 32-bit number.
#[derive(Clone, Copy, Default)]
pub struct Tally {
    /// How many cases were compared.
    pub compared: u32,
    /// How many of them differ.
    pub differ: u32,
}

impl Tally {
    /// Counts one more case, which is the same or differs.
    pub fn note(&mut self, same: bool)
        ensures compared { self.new.compared ≡ min (self.old.compared + 1) u32.MAX }
        ensures differ { self.new.differ ≡ (if same then self.old.differ else min (self.old.differ + 1) u32.MAX) }
    {
        self.compared = self.compared.saturating_add(1);
        if !same {
            self.differ = self.differ.saturating_add(1);
        }
    }
}

/// What was found; it prints as `SUBJECT: N THINGS, M differ`.
#[derive(Clone, Copy)]
pub struct Finding<'a> {
    /// What the compared cases are of, as a kind of curve.
    pub subject: &'a str,
    /// What was counted, in the plural.
    pub things: &'a str,
    /// How many were compared, and how many of them differ.
    pub tally: Tally,
}

impl<'a> fmt::Display for Finding<'a> {
    ghost output = { λ f. Some (finding_text f) };

    fn fmt<W: fmt::Write>(&self, f: &mut fmt::Formatter<W>) -> fmt::Result {
        let tally = self.tally;
        write!(
            f,
            "{}: {} {}, {} differ",
            self.subject, tally.compared, self.things, tally.differ
        )
    }
}
