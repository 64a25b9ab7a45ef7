// Making a point law: which points and limits are taken, and what is refused.
ghost use Rattle.std.specs.Prelude.{◌≡◌, ◌≤◌, [], length, pos, IfOk, None, MatchOption, MatchResult};
ghost use Rattle.std.specs.List.{AllByRecursion};
ghost use Rattle.refusal.specs.First.{FirstOut};
ghost use Rattle.refusal.specs.Refusals.{Says};
ghost use Rattle.laws.specs.Points.{in_range, in_order, sound, Sound, after, AskedLimit, PointsTaken, PointsRefused, PointShape};

use super::PointLaw;
use crate::law::Limits;
use crate::point::Point;
use crate::up_to::UpTo;
use refusal::Refusal;

const FEWEST_POINTS: usize = 2;

const MOST_POINTS: usize = 16;

// A limit in nano.
type Limit = UpTo<100_000_000>;

// The greatest strain of a point, in nano.
const MOST_STRAIN: i64 = 100_000_000;

// The greatest stress of a point, in psi.
const MOST_STRESS: i64 = 300_000;

// Refused by 3 where the number is no limit.
fn limit(nano: i64) -> Result<Limit, Refusal>
    ensures { MatchResult result (λ limit. pos limit.number ≡ nano) (λ refusal. (AskedLimit nano → ⊥) × Says refusal 3 []) }
{
    Limit::try_from(nano).map_err(|_| Refusal::PointLawForm)
}

fn in_range(point: Point) -> bool
    ensures { result ≡ in_range point }
{
    (-MOST_STRAIN..=MOST_STRAIN).contains(&point.strain)
        && (-MOST_STRESS..=MOST_STRESS).contains(&point.stress)
}

fn in_order(before: Option<Point>, point: Point) -> bool
    ensures { result ≡ in_order before point }
{
    before.is_none_or(|b| b.strain < point.strain && b.stress <= point.stress)
}

fn is_sound(before: Option<Point>, point: Point) -> bool
    ensures { result ≡ sound (before, point) }
{
    in_range(point) && in_order(before, point)
}

// The place of the first point that is out of range or out of order.
fn first_unsound(points: &[Point]) -> Option<u8>
    requires { length points.now ≤ 16 }
    ensures { MatchOption result (AllByRecursion Sound (after None points.now)) (λ place. FirstOut Sound (after None points.now) place) }
{
    let mut before = None;
    for (place, point) in points.iter().enumerate() {
        if !is_sound(before, *point) {
            return Some(place as u8);
        }
        before = Some(*point);
    }
    None
}

impl PointLaw {
    // The law through the points as they are, or why they make none.
    pub fn new(points: Vec<Point>, compression: i64, tension: i64) -> Result<PointLaw, Refusal>
        ensures cases { MatchResult result (λ law. PointsTaken points.items compression tension law.points.items law.limits) (λ refusal. PointsRefused points.items compression tension refusal) }
        ensures shape { IfOk result (λ law. PointShape law.points.items) }
    {
        let compression = limit(compression)?;
        let tension = limit(tension)?;
        if points.len() < FEWEST_POINTS || MOST_POINTS < points.len() {
            return Err(Refusal::PointLawForm);
        }
        if let Some(point) = first_unsound(&points) {
            return Err(Refusal::LawPoint { point });
        }
        Ok(PointLaw {
            points,
            limits: Limits {
                compression: compression.number,
                tension: tension.number,
            },
        })
    }
}
