// What a point law answers.
ghost use Rattle.std.specs.Prelude.{◌≡◌, ◌≤◌, T, length};
ghost use Rattle.laws.specs.Points.{line, point_stress, point_law, all_sound, Spans};
ghost use Rattle.laws.specs.PointsLawful.{points_lawful};

use super::PointLaw;
use crate::law::{Law, Limits};
use crate::point::Point;

// The stress on the line from one point to the next, in whole psi.
fn interpolate(from: Point, to: Point, strain: i64) -> i64
    requires { Spans from to strain }
    ensures { result ≡ line from to strain }
{
    from.stress + (to.stress - from.stress) * (strain - from.strain) / (to.strain - from.strain)
}

// The stress at a strain, past one neighbour after the other.
fn stress_at(points: &[Point], strain: i64) -> i64
    requires some { 1 ≤ length points.now }
    requires sound { T (all_sound points.now) }
    ensures { result ≡ point_stress points.now strain }
{
    let mut before = points[0];
    if strain < before.strain {
        return before.stress;
    }
    for point in &points[1..] {
        if strain < point.strain {
            return interpolate(before, *point, strain);
        }
        before = *point;
    }
    before.stress
}

impl Law for PointLaw {
    ghost meaning = { λ s. point_law s.points.items s.limits };

    ghost lawful = { λ s. points_lawful s.points.items s.limits s.points_sound s.shortest_in s.longest_in };

    fn stress(&self, strain: i32) -> i32 {
        stress_at(&self.points, strain as i64) as i32
    }

    fn limits(&self) -> Limits {
        self.limits
    }
}
