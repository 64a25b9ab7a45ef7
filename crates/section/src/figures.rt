// A figure and its range, and the figures of a fibre.
ghost use Rattle.std.specs.Prelude.{◌≡◌, MatchOption, MatchResult};
ghost use Rattle.std.specs.List.{AllByRecursion};
ghost use Rattle.refusal.specs.First.{FirstOut};
ghost use Rattle.section.specs.Calls.{Within, within, fibre_figures, FigureRefused};

use refusal::Refusal;

pub(crate) const MOST_DEPTH: i64 = 4_096;

const MOST_AREA: i64 = 2_000_000;

const MOST_INITIAL: i64 = 100_000_000;

// A figure as it was written, and the ends of its range; both count.
#[derive(Clone, Copy)]
pub(crate) struct Figure {
    pub(crate) least: i64,
    pub(crate) written: i64,
    pub(crate) most: i64,
}

impl Figure {
    fn is_within(&self) -> bool
        ensures { result ≡ within self.now }
    {
        (self.least..=self.most).contains(&self.written)
    }
}

// The place of the first figure that is out of range.
pub(crate) fn first_out(figures: &[Figure]) -> Option<usize>
    ensures { MatchOption result (AllByRecursion Within figures.now) (FirstOut Within figures.now) }
{
    figures.iter().position(|figure| !figure.is_within())
}

// Refused by 7 with the place of the first figure that is out of range.
pub(crate) fn check_fibre(depth: i64, area: i64, initial: i64) -> Result<(), Refusal>
    ensures { MatchResult result (λ _. AllByRecursion Within (fibre_figures depth area initial)) (FigureRefused 7 (fibre_figures depth area initial)) }
{
    let figures = [
        Figure {
            least: 0,
            written: depth,
            most: MOST_DEPTH,
        },
        Figure {
            least: 1,
            written: area,
            most: MOST_AREA,
        },
        Figure {
            least: -MOST_INITIAL,
            written: initial,
            most: MOST_INITIAL,
        },
    ];
    if let Some(place) = first_out(&figures) {
        return Err(Refusal::FibreFigure {
            figure: place as u8,
        });
    }
    Ok(())
}
