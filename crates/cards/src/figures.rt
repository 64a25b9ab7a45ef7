// The range of each figure, and the whole number that a figure in its range becomes.
ghost use Rattle.std.specs.Prelude.{◌≡◌, pos, IfSome, if◌then◌else◌, Some, None};
ghost use Rattle.std.specs.Float.Ieee.{mul, of_int};
ghost use Rattle.std.specs.Float.{float_round, binary64};
ghost use Rattle.cards.specs.Figures.{range, within, whole as whole_of, Bounded};

// Which figure of a card a number is.
#[derive(Clone, Copy)]
pub enum Figure {
    Modulus,
    UhpcStrength,
    Cracking,
    Strain,
    Localization,
    DeckStrength,
    Yielding,
}

// Both ends belong to the range; the scale leads from the written unit to the whole one.
#[derive(Clone, Copy)]
pub struct Range {
    least: f64,
    most: f64,
    scale: f64,
}

// from ksi to psi
const PSI: f64 = 1_000.0;

// from a strain to nano
const NANO: f64 = 1_000_000_000.0;

fn range_of(figure: Figure) -> Range
    ensures { result ≡ range figure }
{
    match figure {
        Figure::Modulus => Range {
            least: 100.0,
            most: 40_000.0,
            scale: PSI,
        },
        Figure::UhpcStrength => Range {
            least: 17.5,
            most: 40.0,
            scale: PSI,
        },
        Figure::Cracking => Range {
            least: 0.75,
            most: 5.0,
            scale: PSI,
        },
        Figure::Strain => Range {
            least: 0.001,
            most: 0.1,
            scale: NANO,
        },
        Figure::Localization => Range {
            least: 0.0025,
            most: 0.1,
            scale: NANO,
        },
        Figure::DeckStrength => Range {
            least: 2.0,
            most: 20.0,
            scale: PSI,
        },
        Figure::Yielding => Range {
            least: 1.0,
            most: 300.0,
            scale: PSI,
        },
    }
}

// The figure in whole psi or nano, where it lies in its range; a NaN lies in none.
pub fn whole(figure: Figure, written: f64) -> Option<u32>
    ensures value { result ≡ (if within figure written then Some (whole_of figure written) else None) }
    ensures exact { IfSome result (λ n. of_int binary64 (pos n) ≡ float_round binary64 (mul binary64 written (range figure).scale)) }
    ensures bounds { IfSome result (Bounded figure) }
{
    let Range { least, most, scale } = range_of(figure);
    if least <= written && written <= most {
        Some((written * scale).round() as u32)
    } else {
        None
    }
}
