// A plane of strain, and the strain of a fibre in it.
ghost use Rattle.std.specs.Prelude.{◌≡◌};
ghost use Rattle.section.specs.Fibres.{strain as strain_of, TopStrain};

use crate::curvature::Curvature;
use crate::fibre::Fibre;

// The strain grows by the curvature, in nano for each sixteenth of an inch of depth, from the top strain in nano.
#[derive(Clone, Copy)]
pub(crate) struct Plane {
    pub(crate) curvature: Curvature,
    pub(crate) top: i32,
    ghost within: { TopStrain top },
}

impl Plane {
    // In nano.
    pub(crate) fn strain(&self, fibre: &Fibre) -> i64
        ensures { result ≡ strain_of self.now.curvature.number self.now.top fibre.now }
    {
        self.top as i64
            + (self.curvature.number as u64 * fibre.depth as u64) as i64
            + fibre.initial as i64
    }
}
