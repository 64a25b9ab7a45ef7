// The number of a law in a kit, and the strain at which the law reaches a stress.
ghost use Rattle.std.specs.Prelude.{◌≡◌, pos, neg_ℤ, MatchResult};
ghost use Rattle.laws.specs.Meaning.{Strain, Limit};
ghost use Rattle.kits.specs.KitsLawful.{stress_or_zero, stress_rises};
ghost use Rattle.kits.specs.Reach.{NumberTaken, NumberRefused, Reaches};

use crate::kit::Kit;
use laws::law::Limits;
use refusal::Refusal;
use search::{NeverFalls, least};

// A number that a user writes, as the kit takes it; refused by 8 where it reaches no law.
pub fn law_number<K: Kit>(kit: &K, number: i64) -> Result<u8, Refusal>
    ensures { MatchResult result (NumberTaken (K.laws kit.now) number) (NumberRefused (K.laws kit.now) number) }
{
    if 0 <= number && number < kit.count() as i64 {
        Ok(number as u8)
    } else {
        Err(Refusal::NoLaw)
    }
}

// The stress by one law of a kit, at every strain.
#[derive(Drop)]
struct KitStress<'a, K> {
    kit: &'a K,
    number: usize,
}

impl<'a, K: Kit> NeverFalls for KitStress<'a, K> {
    ghost covers = { λ q x. Strain x };

    ghost value = { λ q x. stress_or_zero (K.Kit.laws q.kit.now) q.number x };

    ghost rises = { λ q x y f g h. stress_rises (K.Kit.laws q.kit.now) (K.Kit.lawful q.kit.now) q.number x y f g h };

    fn at(&self, point: i32) -> i64 {
        self.kit.stress(self.number, point).unwrap_or(0) as i64
    }
}

// The first and the last strain within the limits.
fn ends(limits: Limits) -> (i32, i32)
    requires compression { Limit limits.compression }
    requires tension { Limit limits.tension }
    ensures first { result.0 ≡ neg_ℤ (pos limits.compression) }
    ensures last { result.1 ≡ pos limits.tension }
{
    (-(limits.compression as i32), limits.tension as i32)
}

// The least strain within the limits of the law at which its stress is not below the given one; psi and nano.
// Refused by 8 where no law has the number, then by 16 where there is no such strain.
pub fn reach<K: Kit>(kit: &K, number: i64, stress: i32) -> Result<i32, Refusal>
    ensures { Reaches (K.laws kit.now) number stress result }
{
    let number = law_number(kit, number)? as usize;
    // The kit's answer is taken apart here and in a section's put: docs/DECISIONS.md, forms that stay.
    let Some(limits) = kit.limits(number) else {
        return Err(Refusal::NoLaw);
    };
    let (first, last) = ends(limits);
    least(&KitStress { kit, number }, first, last, stress as i64).ok_or(Refusal::OutOfReach)
}
