// The numbers that a reduction leaves of a card.
ghost use Rattle.std.specs.Prelude.{◌≡◌, ◌≤◌};
ghost use Rattle.cards.specs.Cards.{thousandths as thousandths_of, reduction as reduction_of};
ghost use Rattle.cards.specs.Lines.{lines};

use super::{Plateaus, TwoLine};
use crate::reduce::{Factor, Factors};
use crate::states::CheckedCard;
use crate::written::Figures;
use laws::law::Limits;

// The limit that stands for none, in nano.
const NO_LIMIT: u32 = 100_000_000;

// So many thousandths of a number, the fraction dropped.
fn thousandths(factor: Factor, n: u32) -> u32
    requires { n ≤ 100000000 }
    ensures value { result ≡ thousandths_of factor.number n }
    ensures bound { result ≤ n }
    ensures some { 1000 ≤ n → 1 ≤ result }
{
    (factor.number as u64 * n as u64 / 1_000) as u32
}

impl CheckedCard {
    // The law that alpha and gamma leave of the figures.
    pub(crate) fn two_line(&self, factors: Factors) -> TwoLine
        ensures { lines result ≡ reduction_of factors.alpha.number factors.gamma.number self.now.figures }
    {
        let Factors { alpha, gamma } = factors;
        match &self.figures {
            Figures::Uhpc(w) => TwoLine {
                modulus: w.modulus,
                plateaus: Plateaus {
                    compression: thousandths(alpha, w.strength),
                    tension: thousandths(gamma, w.cracking),
                },
                limits: Limits {
                    compression: w.ultimate,
                    tension: thousandths(gamma, w.localization),
                },
            },
            Figures::Deck(w) => TwoLine {
                modulus: w.modulus,
                plateaus: Plateaus {
                    compression: thousandths(alpha, w.strength),
                    tension: 0,
                },
                limits: Limits {
                    compression: w.ultimate,
                    tension: NO_LIMIT,
                },
            },
            Figures::Steel(w) => TwoLine {
                modulus: w.modulus,
                plateaus: Plateaus {
                    compression: w.yielding,
                    tension: w.yielding,
                },
                limits: Limits {
                    compression: w.rupture,
                    tension: w.rupture,
                },
            },
        }
    }
}
