// The law of a reduced card, and the numbers that it is made of.
ghost use Rattle.std.specs.Prelude.{◌≡◌};
ghost use Rattle.laws.specs.TwoLine.{TwoLineShape};

use super::{Plateaus, TwoLine};
use crate::states::ReducedCard;

impl ReducedCard {
    // The law of the card, by the numbers that its reduction gave.
    pub fn law(self) -> TwoLine
        ensures value { result ≡ self.law }
        ensures shape { TwoLineShape result.modulus result.plateaus.compression result.plateaus.tension }
    {
        self.law
    }
}

impl TwoLine {
    pub fn modulus(&self) -> u32
        ensures { result ≡ self.now.modulus }
    {
        self.modulus
    }

    pub fn plateaus(&self) -> Plateaus
        ensures { result ≡ self.now.plateaus }
    {
        self.plateaus
    }
}
