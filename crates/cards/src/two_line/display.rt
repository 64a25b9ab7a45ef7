// How a two-line law is written.
ghost use Rattle.std.specs.Prelude.{Some};
ghost use Rattle.cards.specs.Written.{plateaus_line, two_line_line};

use super::{Plateaus, TwoLine};
use std::fmt;

// Compression, then tension, one space between: as Limits, whose type is another.
impl fmt::Display for Plateaus {
    ghost output = { λ x. Some (plateaus_line x) };

    fn fmt<W: fmt::Write>(&self, f: &mut fmt::Formatter<W>) -> fmt::Result {
        let compression = self.compression;
        let tension = self.tension;
        write!(f, "{compression} {tension}")
    }
}

// The modulus, the plateaus and the limits, one space between.
impl fmt::Display for TwoLine {
    ghost output = { λ x. Some (two_line_line x) };

    fn fmt<W: fmt::Write>(&self, f: &mut fmt::Formatter<W>) -> fmt::Result {
        let modulus = self.modulus;
        let plateaus = self.plateaus;
        let limits = self.limits;
        write!(f, "{modulus} {plateaus} {limits}")
    }
}
