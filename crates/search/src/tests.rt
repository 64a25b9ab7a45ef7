// The search over a quantity that borrows: how many of the marks a point has reached.
ghost use Rattle.std.specs.Prelude.{◌≤◌, length};
ghost use Rattle.search.specs.Marks.{reached, reached_rises};

use super::*;

#[derive(Drop)]
struct Marks<'a> {
    marks: &'a [i32],
    ghost few: { length marks.now ≤ 100 },
}

impl<'a> NeverFalls for Marks<'a> {
    ghost covers = { λ q x. Unit {0} };

    ghost value = { λ q x. reached q.marks.now x };

    ghost rises = { λ q x y a b h. reached_rises q.marks.now x y h };

    fn at(&self, point: i32) -> i64 {
        self.marks.iter().filter(|mark| **mark <= point).count() as i64
    }
}

#[test]
fn least_of_equal_values(rt: HostRuntime) {
    let quantity = Marks {
        marks: &[-5, 2, 2, 9],
    };
    assert_eq!(rt; least(&quantity, -10, 10, 1), Some(-5));
    assert_eq!(rt; least(&quantity, -10, 10, 2), Some(2));
    assert_eq!(rt; least(&quantity, -10, 10, 3), Some(2));
    assert_eq!(rt; least(&quantity, 3, 8, 3), Some(3));
}

#[test]
fn greatest_of_equal_values(rt: HostRuntime) {
    let quantity = Marks {
        marks: &[-5, 2, 2, 9],
    };
    assert_eq!(rt; greatest(&quantity, -10, 10, 1), Some(1));
    assert_eq!(rt; greatest(&quantity, -10, 10, 2), Some(1));
    assert_eq!(rt; greatest(&quantity, -10, 10, 3), Some(8));
    assert_eq!(rt; greatest(&quantity, 3, 8, 3), Some(8));
}

#[test]
fn targets_beyond_the_values(rt: HostRuntime) {
    let quantity = Marks {
        marks: &[-5, 2, 2, 9],
    };
    assert_eq!(rt; least(&quantity, -10, 10, -1), Some(-10));
    assert_eq!(rt; least(&quantity, -10, 10, 5), None);
    assert_eq!(rt; least(&quantity, -10, 10, i64::MIN), Some(-10));
    assert_eq!(rt; least(&quantity, -10, 10, i64::MAX), None);
    assert_eq!(rt; greatest(&quantity, -10, 10, -1), None);
    assert_eq!(rt; greatest(&quantity, -10, 10, 5), Some(10));
    assert_eq!(rt; greatest(&quantity, -10, 10, i64::MIN), None);
    assert_eq!(rt; greatest(&quantity, -10, 10, i64::MAX), Some(10));
}

#[test]
fn one_point_or_none(rt: HostRuntime) {
    let quantity = Marks {
        marks: &[-5, 2, 2, 9],
    };
    assert_eq!(rt; least(&quantity, 2, 2, 3), Some(2));
    assert_eq!(rt; least(&quantity, 1, 1, 3), None);
    assert_eq!(rt; least(&quantity, 3, 2, i64::MIN), None);
    assert_eq!(rt; least(&quantity, i32::MAX, i32::MIN, 0), None);
    assert_eq!(rt; greatest(&quantity, 2, 2, 3), Some(2));
    assert_eq!(rt; greatest(&quantity, 2, 2, 2), None);
    assert_eq!(rt; greatest(&quantity, 3, 2, i64::MAX), None);
    assert_eq!(rt; greatest(&quantity, i32::MAX, i32::MIN, 0), None);
}

#[test]
fn ends_of_the_numbers(rt: HostRuntime) {
    let quantity = Marks {
        marks: &[i32::MIN, i32::MAX],
    };
    assert_eq!(rt; least(&quantity, i32::MIN, i32::MAX, 1), Some(i32::MIN));
    assert_eq!(rt; least(&quantity, i32::MIN, i32::MAX, 2), Some(i32::MAX));
    assert_eq!(rt; least(&quantity, i32::MIN, i32::MIN, 2), None);
    assert_eq!(rt; greatest(&quantity, i32::MIN, i32::MAX, 0), None);
    assert_eq!(rt;
        greatest(&quantity, i32::MIN, i32::MAX, 1),
        Some(i32::MAX - 1)
    );
    assert_eq!(rt; greatest(&quantity, i32::MIN, i32::MAX, 2), Some(i32::MAX));
    assert_eq!(rt; greatest(&quantity, i32::MIN, i32::MIN, 1), Some(i32::MIN));
}
