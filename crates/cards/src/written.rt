// The figures of a card by its kind, and a card as an engineer writes it.
ghost use Rattle.std.specs.Prelude.{◌≡◌};

use refusal::Refusal;

// The figures of an ultra-high performance concrete.
#[derive(Drop, Debug)]
pub struct UhpcFigures<N> {
    pub modulus: N,
    pub strength: N,
    pub cracking: N,
    pub ultimate: N,
    pub localization: N,
}

// The figures of a conventional concrete, as of a deck.
#[derive(Drop, Debug)]
pub struct DeckFigures<N> {
    pub modulus: N,
    pub strength: N,
    pub ultimate: N,
}

// The figures of a steel.
#[derive(Drop, Debug)]
pub struct SteelFigures<N> {
    pub modulus: N,
    pub yielding: N,
    pub rupture: N,
}

// The figures of a card, as one type of number.
#[derive(Drop, Debug)]
pub enum Figures<N> {
    Uhpc(UhpcFigures<N>),
    Deck(DeckFigures<N>),
    Steel(SteelFigures<N>),
}

// Moduli and stresses in ksi, strains as they are.
pub type WrittenCard = Figures<f64>;

// Each of these three takes the numbers in the order in which they are written; they are three, as each kind has fields of its own.
impl<N> From<[N; 5]> for UhpcFigures<N> {
    ghost use Rattle.cards.specs.Kinds.{uhpc_numbers};

    ghost from_gives = { λ numbers f. uhpc_numbers f ≡ numbers };

    fn from(numbers: [N; 5]) -> UhpcFigures<N> {
        let [modulus, strength, cracking, ultimate, localization] = numbers;
        UhpcFigures {
            modulus,
            strength,
            cracking,
            ultimate,
            localization,
        }
    }
}

impl<N> From<[N; 3]> for DeckFigures<N> {
    ghost use Rattle.cards.specs.Kinds.{deck_numbers};

    ghost from_gives = { λ numbers f. deck_numbers f ≡ numbers };

    fn from(numbers: [N; 3]) -> DeckFigures<N> {
        let [modulus, strength, ultimate] = numbers;
        DeckFigures {
            modulus,
            strength,
            ultimate,
        }
    }
}

impl<N> From<[N; 3]> for SteelFigures<N> {
    ghost use Rattle.cards.specs.Kinds.{steel_numbers};

    ghost from_gives = { λ numbers f. steel_numbers f ≡ numbers };

    fn from(numbers: [N; 3]) -> SteelFigures<N> {
        let [modulus, yielding, rupture] = numbers;
        SteelFigures {
            modulus,
            yielding,
            rupture,
        }
    }
}

// A card that a call refused: the card as it was, and why.
#[derive(Drop)]
pub struct RefusedCard<C> {
    pub card: C,
    pub refusal: Refusal,
}

// The card is let go.
impl<C: Drop> From<RefusedCard<C>> for Refusal {
    ghost from_gives = { λ refused refusal. refusal ≡ refused.refusal };

    fn from(refused: RefusedCard<C>) -> Refusal {
        refused.refusal
    }
}
