// What a row of fibres answers under a load at a curvature.
ghost use Rattle.section.specs.Asked.{Asked};
ghost use Rattle.section.specs.Truths.{TruthsOf};

use crate::curvature::Curvature;
use crate::ends::Ends;
use crate::force::ForceAt;
use crate::load::Load;
use crate::plane::Plane;
use crate::row::Row;
use kits::kit::Kit;
use refusal::Refusal;
use search::{greatest, least};

impl<K: Kit> Row<K> {
    // The ends of the top strains that balance the load, or the first ground that bars them. Each search asks for at most 33 forces.
    pub(crate) fn ask(&self, load: &Load, curvature: Curvature) -> Result<Ends, Refusal>
        ensures asked { Asked (K.laws self.now.kit) self.now.fibres.items load.now.force load.now.depth curvature.number result }
        ensures truths { TruthsOf (K.laws self.now.kit) self.now.fibres.items load.now.force load.now.depth curvature.number }
    {
        let range = self.range(curvature).ok_or(Refusal::EmptySection)?;
        let (low, high) = (range.least, range.greatest);
        if high.top < low.top {
            return Err(Refusal::NoneAdmitted {
                compressed: low.fibre,
                stretched: high.fibre,
            });
        }
        let force = ForceAt {
            row: self,
            curvature,
        };
        let last = greatest(&force, low.top, high.top, load.force).ok_or(Refusal::Crushed {
            fibre: low.fibre,
        })?;
        let first = least(&force, low.top, high.top, load.force).ok_or(Refusal::Parted {
            fibre: high.fibre,
        })?;
        Ok(Ends {
            first,
            last,
            first_moment: self.moment(
                load,
                Plane {
                    curvature,
                    top: first,
                },
            ),
            last_moment: self.moment(
                load,
                Plane {
                    curvature,
                    top: last,
                },
            ),
        })
    }
}
