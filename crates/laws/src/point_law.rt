// The law through given points, which only points in range and in order make.
ghost use Rattle.std.specs.Prelude.{◌≤◌, T, vec_len};
ghost use Rattle.laws.specs.Meaning.{Limit};
ghost use Rattle.laws.specs.Points.{all_sound};

use crate::law::Limits;
use crate::point::Point;

// Straight lines between neighbouring points, and the end stresses beyond; psi and nano.
#[derive(Drop)]
pub struct PointLaw {
    points: Vec<Point>,
    limits: Limits,
    ghost enough: { 2 ≤ vec_len points },
    ghost few: { vec_len points ≤ 16 },
    ghost points_sound: { T (all_sound points.items) },
    ghost shortest_in: { Limit limits.compression },
    ghost longest_in: { Limit limits.tension },
}

mod check;
pub mod law;
#[cfg(test)]
mod tests;
