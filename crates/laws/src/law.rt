// A law of a material: the stress at every strain, and how far it may be strained.
ghost use Rattle.std.specs.Prelude.{◌≡◌, Some};
ghost use Rattle.laws.specs.Meaning.{Meaning, Lawful};
ghost use Rattle.laws.specs.Written.{limits_line};

use std::fmt;

// The greatest shortening and the greatest lengthening that a material stands, in nano.
// Their range is a fact of the laws that hold them: as one of this type it would ask more of who makes two limits to print or compare them.
#[derive(Clone, Copy, PartialEq, Eq, Debug)]
pub struct Limits {
    pub compression: u32,
    pub tension: u32,
}

// Compression, then tension, one space between.
impl fmt::Display for Limits {
    ghost output = { λ x. Some (limits_line x) };

    fn fmt<W: fmt::Write>(&self, f: &mut fmt::Formatter<W>) -> fmt::Result {
        let compression = self.compression;
        let tension = self.tension;
        write!(f, "{compression} {tension}")
    }
}

// Strains are in nano and stresses in psi, tension positive. Whoever implements a law gives its meaning and the proof that it is lawful.
pub trait Law {
    ghost meaning: { Self → Meaning };

    ghost lawful: { (x : Self) → Lawful (meaning x) };

    fn stress(&self, strain: i32) -> i32
        ensures { result ≡ (meaning self.now).stress strain };

    fn limits(&self) -> Limits
        ensures compression { result.compression ≡ (meaning self.now).compression }
        ensures tension { result.tension ≡ (meaning self.now).tension };
}
