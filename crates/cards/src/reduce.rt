// From a checked card to a reduced one.
ghost use Rattle.std.specs.Prelude.{◌≡◌, pos, MatchResult};
ghost use Rattle.cards.specs.Cards.{FactorRefused, FactorOut, Reduced};

use crate::states::{CheckedCard, ReducedCard};
use crate::written::RefusedCard;
use laws::up_to::UpTo;
use refusal::Refusal;

// A factor in thousandths.
pub(crate) type Factor = UpTo<850>;

// What a strength and what a crack is multiplied by.
#[derive(Clone, Copy)]
pub(crate) struct Factors {
    pub(crate) alpha: Factor,
    pub(crate) gamma: Factor,
}

// Refused by its place where it is out of range.
fn factor(place: u8, thousandths: i64) -> Result<Factor, Refusal>
    ensures { MatchResult result (λ f. pos f.number ≡ thousandths) (FactorOut place thousandths) }
{
    Factor::try_from(thousandths).map_err(|_| Refusal::Factor { factor: place })
}

impl Factors {
    // Refused by 2 with the place of the first that is out of range.
    fn new(alpha: i64, gamma: i64) -> Result<Factors, Refusal>
        ensures { MatchResult result (λ f. (pos f.alpha.number ≡ alpha) × (pos f.gamma.number ≡ gamma)) (FactorRefused alpha gamma) }
    {
        Ok(Factors {
            alpha: factor(0, alpha)?,
            gamma: factor(1, gamma)?,
        })
    }
}

impl CheckedCard {
    // The card with alpha and gamma applied, in thousandths, or the card as it was and the first factor out of range.
    pub fn reduce(self, alpha: i64, gamma: i64) -> Result<ReducedCard, RefusedCard<CheckedCard>>
        ensures { MatchResult result (λ c. Reduced alpha gamma self.figures c.law) (λ e. FactorRefused alpha gamma e.refusal × (e.card ≡ self)) }
    {
        // A match, since the error hands the card back, which a closure would have to take along.
        match Factors::new(alpha, gamma) {
            Ok(factors) => Ok(ReducedCard {
                law: self.two_line(factors),
            }),
            Err(refusal) => Err(RefusedCard {
                card: self,
                refusal,
            }),
        }
    }
}
