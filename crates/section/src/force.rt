// The force of a row at a curvature, as a quantity that never falls.
ghost use Rattle.std.specs.Prelude.{vec_items};
ghost use Rattle.section.specs.Fibres.{force as force_of, TopStrain};
ghost use Rattle.section.specs.Ranges.{each_ranged};
ghost use Rattle.section.specs.ForceRises.{force_rises};

use crate::curvature::Curvature;
use crate::plane::Plane;
use crate::row::Row;
use kits::kit::Kit;
use search::NeverFalls;

// Its points are the top strains.
#[derive(Drop)]
pub(crate) struct ForceAt<'a, K> {
    pub(crate) row: &'a Row<K>,
    pub(crate) curvature: Curvature,
}

impl<'a, K: Kit> NeverFalls for ForceAt<'a, K> {
    ghost covers = { λ q x. TopStrain x };

    ghost value = { λ q x. force_of (K.Kit.laws q.row.now.kit) (vec_items q.row.now.fibres) q.curvature.number x };

    ghost rises = { λ q x y f g h. force_rises (K.Kit.laws q.row.now.kit) (K.Kit.lawful q.row.now.kit) q.curvature.number q.curvature.gentle (vec_items q.row.now.fibres) (each_ranged (vec_items q.row.now.fibres) q.row.now.ranged) x y f g h };

    fn at(&self, point: i32) -> i64 {
        self.row.force(Plane {
            curvature: self.curvature,
            top: point,
        })
    }
}
