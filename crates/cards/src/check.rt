// From a written card to a checked one.
ghost use Rattle.std.specs.Prelude.{◌≡◌, MatchResult};
ghost use Rattle.std.specs.List.{AllByRecursion};
ghost use Rattle.cards.specs.Figures.{InRange};
ghost use Rattle.cards.specs.Kinds.{uhpc_figures, deck_figures, steel_figures, figures};
ghost use Rattle.cards.specs.Cards.{Checked, FigureRefused, FigureOut, Rounded};

use crate::figures::{Figure, whole};
use crate::states::CheckedCard;
use crate::written::{DeckFigures, Figures, RefusedCard, SteelFigures, UhpcFigures, WrittenCard};
use refusal::Refusal;

// The figure in whole psi or nano; refused by its place where it lies outside its range.
fn checked(place: u8, figure: Figure, written: f64) -> Result<u32, Refusal>
    ensures { MatchResult result (λ n. Rounded (figure, written) (figure, n)) (FigureOut place (figure, written)) }
{
    whole(figure, written).ok_or(Refusal::CardFigure { figure: place })
}

impl UhpcFigures<f64> {
    // Each of these three takes the figures in their order, and refuses the first out of its range; they are three, as each kind has fields and ranges of its own.
    fn check(&self) -> Result<UhpcFigures<u32>, Refusal>
        ensures { MatchResult result (λ w. Checked (uhpc_figures self.now) (uhpc_figures w) × AllByRecursion InRange (uhpc_figures w)) (FigureRefused (uhpc_figures self.now)) }
    {
        Ok(UhpcFigures {
            modulus: checked(0, Figure::Modulus, self.modulus)?,
            strength: checked(1, Figure::UhpcStrength, self.strength)?,
            cracking: checked(2, Figure::Cracking, self.cracking)?,
            ultimate: checked(3, Figure::Strain, self.ultimate)?,
            localization: checked(4, Figure::Localization, self.localization)?,
        })
    }
}

impl DeckFigures<f64> {
    fn check(&self) -> Result<DeckFigures<u32>, Refusal>
        ensures { MatchResult result (λ w. Checked (deck_figures self.now) (deck_figures w) × AllByRecursion InRange (deck_figures w)) (FigureRefused (deck_figures self.now)) }
    {
        Ok(DeckFigures {
            modulus: checked(0, Figure::Modulus, self.modulus)?,
            strength: checked(1, Figure::DeckStrength, self.strength)?,
            ultimate: checked(2, Figure::Strain, self.ultimate)?,
        })
    }
}

impl SteelFigures<f64> {
    fn check(&self) -> Result<SteelFigures<u32>, Refusal>
        ensures { MatchResult result (λ w. Checked (steel_figures self.now) (steel_figures w) × AllByRecursion InRange (steel_figures w)) (FigureRefused (steel_figures self.now)) }
    {
        Ok(SteelFigures {
            modulus: checked(0, Figure::Modulus, self.modulus)?,
            yielding: checked(1, Figure::Yielding, self.yielding)?,
            rupture: checked(2, Figure::Strain, self.rupture)?,
        })
    }
}

impl WrittenCard {
    // The card in whole psi and nano, or the card as it was and its first bad figure.
    pub fn check(self) -> Result<CheckedCard, RefusedCard<WrittenCard>>
        ensures { MatchResult result (λ c. Checked (figures self) (figures c.figures)) (λ e. FigureRefused (figures self) e.refusal × (e.card ≡ self)) }
    {
        let checked = match &self {
            Figures::Uhpc(f) => f.check().map(Figures::Uhpc),
            Figures::Deck(f) => f.check().map(Figures::Deck),
            Figures::Steel(f) => f.check().map(Figures::Steel),
        };
        // A match, since the error hands the card back, which a closure would have to take along.
        match checked {
            Ok(figures) => Ok(CheckedCard { figures }),
            Err(refusal) => Err(RefusedCard {
                card: self,
                refusal,
            }),
        }
    }
}
