// Kits of a law of the tests' own, of point laws and of both, and what is reached in them.
ghost use Rattle.std.specs.Prelude.{◌≤◌};
ghost use Rattle.kits.specs.Step.{step_law, step_lawful};

use crate::joined::{Joined, join, regroup};
use crate::kit::Kit;
use crate::reach::{law_number, reach};
use crate::single::Single;
use laws::law::{Law, Limits};
use laws::point::Point;
use laws::point_law::PointLaw;
use refusal::Refusal;
use std::alloc::{AllocError, Global};
use std::process::Abort;
use std::test::Fail;

// Minus its height in psi below zero, and its height from zero on.
#[derive(Clone, Copy)]
struct Step {
    height: u32,
    ghost sound: { height ≤ 300000 },
}

impl Law for Step {
    ghost meaning = { λ s. step_law s.height };

    ghost lawful = { λ s. step_lawful s.height s.sound };

    fn stress(&self, strain: i32) -> i32 {
        let height = self.height as i32;
        if strain < 0 { -height } else { height }
    }

    fn limits(&self) -> Limits {
        Limits {
            compression: 50,
            tension: 30,
        }
    }
}

// Each law's height is its number.
fn steps(heap: Global, count: u16) -> Result<Vec<Step>, AllocError> {
    (0..count)
        .map(|number| Step {
            height: number as u32,
        })
        .collect(heap)
}

fn at(strain: i64, stress: i64) -> Point {
    Point { strain, stress }
}

// Rising from -300 to 300 psi, and flat at -100 psi from -10 to 10 nano.
fn bent(heap: Global) -> Result<PointLaw, Fail> {
    let points = [at(-20, -300), at(-10, -100), at(10, -100), at(20, 300)];
    Ok(PointLaw::new(points.to_vec(heap)?, 25, 40)?)
}

// Below, at and past the step, and the ends of the numbers.
const IN_STEP: [(i32, Result<i32, Refusal>); 7] = [
    (i32::MIN, Ok(-50)),
    (-100, Ok(-50)),
    (-99, Ok(0)),
    (0, Ok(0)),
    (100, Ok(0)),
    (101, Err(Refusal::OutOfReach)),
    (i32::MAX, Err(Refusal::OutOfReach)),
];

// The foot of the upper plateau, both sides of the flat stretch, and beyond both plateaus.
const IN_BENT: [(i32, Result<i32, Refusal>); 10] = [
    (i32::MIN, Ok(-25)),
    (-300, Ok(-25)),
    (-299, Ok(-19)),
    (-101, Ok(-10)),
    (-100, Ok(-10)),
    (-99, Ok(11)),
    (299, Ok(20)),
    (300, Ok(20)),
    (301, Err(Refusal::OutOfReach)),
    (i32::MAX, Err(Refusal::OutOfReach)),
];

fn reaches<K: Kit>(rt: &impl Abort, kit: &K, number: i64, answers: &[(i32, Result<i32, Refusal>)]) {
    for (stress, answer) in answers {
        assert_eq!(rt; reach(kit, number, *stress), *answer);
    }
}

fn has_no_law<K: Kit>(rt: &impl Abort, kit: &K, number: i64) {
    assert_eq!(rt; law_number(kit, number), Err(Refusal::NoLaw));
    assert_eq!(rt; reach(kit, number, 0), Err(Refusal::NoLaw));
}

#[test]
fn joined_in_both_orders(rt: HostRuntime) -> Result<(), Fail> {
    let kit = join(Single(Step { height: 100 }), Single(bent(rt.alloc())?));
    assert_eq!(rt; kit.count(), 2);
    reaches(&rt, &kit, 0, &IN_STEP);
    reaches(&rt, &kit, 1, &IN_BENT);
    let kit = join(Single(bent(rt.alloc())?), Single(Step { height: 100 }));
    assert_eq!(rt; kit.count(), 2);
    reaches(&rt, &kit, 0, &IN_BENT);
    reaches(&rt, &kit, 1, &IN_STEP);
    for number in [i64::MIN, -1, 2, 255, i64::MAX] {
        has_no_law(&rt, &kit, number);
    }
    Ok(())
}

#[test]
fn long_lists(rt: HostRuntime) -> Result<(), Fail> {
    for count in [254, 255, 256, 300] {
        let kit = steps(rt.alloc(), count)?;
        let reached = count.min(255);
        assert_eq!(rt; kit.count() as u16, reached);
        for number in [253, 254, 255, 299] {
            let stress = (number < reached).then_some(number as i32);
            assert_eq!(rt; kit.stress(number as usize, 10), stress);
            assert_eq!(rt; kit.limits(number as usize).is_some(), number < reached);
        }
    }
    Ok(())
}

#[test]
fn joined_lists(rt: HostRuntime) -> Result<(), Fail> {
    let first = steps(rt.alloc(), 200)?;
    let second = steps(rt.alloc(), 50)?;
    let third = steps(rt.alloc(), 100)?;
    let kit = regroup(Joined(Joined(first, second), third));
    assert_eq!(rt; kit.count(), 255);
    for (number, height) in [(0, 0), (199, 199), (200, 0), (249, 49), (250, 0), (254, 4)] {
        assert_eq!(rt; kit.stress(number, 10), Some(height));
        assert_eq!(rt; law_number(&kit, number as i64), Ok(number as u8));
    }
    assert_eq!(rt; kit.stress(255, 10), None);
    assert_eq!(rt; kit.limits(255), None);
    has_no_law(&rt, &kit, 255);
    Ok(())
}
