// A kit: the laws of several materials by number, from 0.
ghost use Rattle.std.specs.Prelude.{◌≡◌, List};
ghost use Rattle.std.specs.List.{AllByRecursion};
ghost use Rattle.laws.specs.Meaning.{Meaning, Lawful};
ghost use Rattle.kits.specs.Kits.{counted, stress_at, limits_at};

use laws::law::Limits;

// As many laws of a kit can be reached, and no more.
pub const MOST_LAWS: usize = 255;

// Whoever implements a kit gives its laws in the order of their numbers, and the proof that each is lawful.
pub trait Kit {
    ghost laws: { Self → List Meaning };

    ghost lawful: { (x : Self) → AllByRecursion Lawful (laws x) };

    // How many laws can be reached.
    fn count(&self) -> u8
        ensures { result ≡ counted (laws self.now) };

    // The stress by the law of that number, if there is one; nano and psi.
    fn stress(&self, number: usize, strain: i32) -> Option<i32>
        ensures { result ≡ stress_at (laws self.now) number strain };

    fn limits(&self, number: usize) -> Option<Limits>
        ensures { result ≡ limits_at (laws self.now) number };
}
