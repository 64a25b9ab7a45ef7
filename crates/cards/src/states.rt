// The states of a card after it was written. Only the calls of this crate lead from one to the next.
ghost use Rattle.std.specs.List.{AllByRecursion, AllByRecursion-prop};
ghost use Rattle.cards.specs.Figures.{InRange, InRange-prop};
ghost use Rattle.cards.specs.Kinds.{figures as figures_of};

use crate::two_line::TwoLine;
use crate::written::Figures;

// A card whose figures all lie in their ranges, in whole psi and nano.
#[derive(Drop)]
pub struct CheckedCard {
    pub(crate) figures: Figures<u32>,
    ghost in_range: { AllByRecursion InRange (figures_of figures) } by { AllByRecursion-prop InRange InRange-prop (figures_of figures) },
}

// A checked card with its factors applied: what is left of it is the law that it makes.
#[derive(Drop)]
pub struct ReducedCard {
    pub(crate) law: TwoLine,
}
