// A row of fibres and the kit of their laws: its force, its moment and the range of its top strains.
ghost use Rattle.std.specs.Prelude.{◌≡◌, ◌≤◌, T, [], MatchOption, vec_len, vec_capacity};
ghost use Rattle.laws.specs.Meaning.{Limit};
ghost use Rattle.section.specs.Fibres.{law_of, pull as pull_of, force as force_of, moment as moment_of, Ranged};
ghost use Rattle.section.specs.Asked.{least_for, greatest_for};
ghost use Rattle.section.specs.Range.{SetsEnds};
ghost use Rattle.section.specs.Ranges.{all_ranged};

use crate::curvature::Curvature;
use crate::fibre::Fibre;
use crate::load::Load;
use crate::plane::Plane;
use crate::range::{End, Range};
use kits::kit::Kit;
use laws::law::Limits;

// The kit, and the fibres by position from 0, in memory that is reserved for all that it may hold.
#[derive(Drop)]
pub(crate) struct Row<K> {
    pub(crate) kit: K,
    pub(crate) fibres: Vec<Fibre>,
    ghost room: { 512 ≤ vec_capacity fibres },
    ghost few: { vec_len fibres ≤ 512 },
    ghost ranged: { T (all_ranged fibres.items) },
}

impl<K: Kit> Row<K> {
    // The force of a fibre, its area times its stress, in thousandths of a pound.
    fn pull(&self, plane: Plane, fibre: &Fibre) -> i64
        requires { Ranged fibre.now }
        ensures { result ≡ pull_of (K.laws self.now.kit) plane.curvature.number plane.top fibre.now }
    {
        let stress = self
            .kit
            .stress(fibre.material as usize, plane.strain(fibre) as i32)
            .unwrap_or(0);
        fibre.area as i64 * stress as i64
    }

    // The force of all fibres.
    pub(crate) fn force(&self, plane: Plane) -> i64
        ensures { result ≡ force_of (K.laws self.now.kit) self.now.fibres.items plane.curvature.number plane.top }
    {
        // A plain loop, and another for the moment, so that each reads as the sum that an engineer writes: docs/DECISIONS.md, forms that stay.
        let mut sum = 0;
        for fibre in &self.fibres {
            sum += self.pull(plane, fibre);
        }
        sum
    }

    // The moment of all fibres about the top, less that of the load.
    pub(crate) fn moment(&self, load: &Load, plane: Plane) -> i64
        ensures { result ≡ moment_of (K.laws self.now.kit) self.now.fibres.items load.now.force load.now.depth plane.curvature.number plane.top }
    {
        let mut sum = 0;
        for fibre in &self.fibres {
            sum += self.pull(plane, fibre) * fibre.depth as i64;
        }
        sum - load.force * load.depth as i64
    }

    // The limits of the law of a fibre.
    fn limits_of(&self, fibre: &Fibre) -> Limits
        ensures compression { result.compression ≡ (law_of (K.laws self.now.kit) fibre.now).compression }
        ensures tension { result.tension ≡ (law_of (K.laws self.now.kit) fibre.now).tension }
        ensures within { Limit result.compression × Limit result.tension }
    {
        self.kit.limits(fibre.material as usize).unwrap_or(Limits {
            compression: 1,
            tension: 1,
        })
    }

    // Where a fibre meets its limits.
    fn fibre_range(&self, curvature: Curvature, fibre: &Fibre, position: u16) -> Range
        requires { Ranged fibre.now }
        ensures least { result.least.top ≡ least_for (K.laws self.now.kit) curvature.number fibre.now }
        ensures greatest { result.greatest.top ≡ greatest_for (K.laws self.now.kit) curvature.number fibre.now }
        ensures places { (result.least.fibre ≡ position) × (result.greatest.fibre ≡ position) }
    {
        let limits = self.limits_of(fibre);
        // The strain of the fibre where the top has none.
        let moved = Plane { curvature, top: 0 }.strain(fibre);
        Range {
            least: End {
                top: (-(limits.compression as i64) - moved) as i32,
                fibre: position,
            },
            greatest: End {
                top: (limits.tension as i64 - moved) as i32,
                fibre: position,
            },
        }
    }

    // The range of the whole row, where it has a fibre.
    pub(crate) fn range(&self, curvature: Curvature) -> Option<Range>
        ensures { MatchOption result (self.now.fibres.items ≡ []) (SetsEnds (K.laws self.now.kit) self.now.fibres.items curvature.number) }
    {
        // A loop: as a chain that ends in `reduce`, what each of its calls needs was not shown.
        let mut range: Option<Range> = None;
        for (position, fibre) in self.fibres.iter().enumerate() {
            let own = self.fibre_range(curvature, fibre, position as u16);
            range = Some(match range {
                Some(before) => before.shared(own),
                None => own,
            });
        }
        range
    }
}
