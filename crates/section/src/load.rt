// The load of a section.
ghost use Rattle.std.specs.Prelude.{◌≡◌, unsigned_abs, MatchResult};
ghost use Rattle.std.specs.List.{AllByRecursion};
ghost use Rattle.section.specs.Ranges.{LoadRanged};

use crate::figures::{Figure, MOST_DEPTH, first_out};
use refusal::Refusal;

const MOST_LOAD: i64 = 400_000_000_000_000;

// The load in thousandths of a pound and its depth below the top in sixteenths of an inch.
#[derive(Clone, Copy)]
pub(crate) struct Load {
    pub(crate) force: i64,
    pub(crate) depth: u32,
    ghost ranged: { LoadRanged force depth },
}

impl Load {
    ghost use Rattle.section.specs.Calls.{Within, load_figures, FigureRefused};

    // The load of these figures; refused by 10 with the place of the first that is out of range.
    pub(crate) fn new(force: i64, depth: i64) -> Result<Load, Refusal>
        ensures { MatchResult result (λ load. AllByRecursion Within (load_figures force depth) × (load.force ≡ force) × (load.depth ≡ unsigned_abs depth)) (FigureRefused 10 (load_figures force depth)) }
    {
        let figures = [
            Figure {
                least: -MOST_LOAD,
                written: force,
                most: MOST_LOAD,
            },
            Figure {
                least: 0,
                written: depth,
                most: MOST_DEPTH,
            },
        ];
        if let Some(place) = first_out(&figures) {
            return Err(Refusal::LoadFigure {
                figure: place as u8,
            });
        }
        Ok(Load {
            force,
            depth: depth as u32,
        })
    }
}
