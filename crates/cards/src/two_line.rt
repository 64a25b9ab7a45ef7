// The two-line law, which only a reduced card makes.
ghost use Rattle.std.specs.Prelude.{◌≤◌};
ghost use Rattle.laws.specs.Meaning.{Limit};

use laws::law::Limits;

// The greatest stresses of a two-line law, in psi. Limits has the same two names, in nano: as one type, a stress could be put for a strain.
#[derive(Clone, Copy, PartialEq, Eq, Debug)]
pub struct Plateaus {
    pub compression: u32,
    pub tension: u32,
}

// A straight line through zero with the slope of the modulus, cut off at a plateau on each side; psi and nano.
#[derive(Clone, Copy)]
pub struct TwoLine {
    modulus: u32,
    plateaus: Plateaus,
    limits: Limits,
    ghost modulus_in: { (100000 ≤ modulus) × (modulus ≤ 40000000) },
    ghost compression_in: { plateaus.compression ≤ 300000 },
    ghost tension_in: { plateaus.tension ≤ 300000 },
    ghost shortest_in: { Limit limits.compression },
    ghost longest_in: { Limit limits.tension },
}

pub mod display;
pub mod law;
pub mod parts;
pub(crate) mod reduction;
