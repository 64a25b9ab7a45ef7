// Point laws that are made, and what they answer; and those that are refused.
use super::PointLaw;
use crate::law::{Law, Limits};
use crate::point::Point;
use refusal::Refusal;
use std::alloc::{AllocError, Global};
use std::test::Fail;

fn at(strain: i64, stress: i64) -> Point {
    Point { strain, stress }
}

// Why the points and the limits make no law.
fn refused(
    heap: Global,
    points: &[Point],
    limits: (i64, i64),
) -> Result<Option<Refusal>, AllocError> {
    let (compression, tension) = limits;
    Ok(PointLaw::new(points.to_vec(heap)?, compression, tension).err())
}

// So many points on one line.
fn refused_count(heap: Global, count: u8) -> Result<Option<Refusal>, AllocError> {
    let points: Vec<Point> = (0..count).map(|n| at(n as i64, n as i64)).collect(heap)?;
    refused(heap, &points, (1, 1))
}

#[test]
fn worked_curve(rt: HostRuntime) -> Result<(), Fail> {
    let points = [at(0, 0), at(8_000_000, 230_000), at(10_000_000, 245_000)];
    let law = PointLaw::new(points.to_vec(rt.alloc())?, 35_000_000, 40_000_000)?;
    assert_eq!(rt; law.stress(i32::MIN), 0);
    assert_eq!(rt; law.stress(-5), 0);
    assert_eq!(rt; law.stress(34), 0);
    assert_eq!(rt; law.stress(35), 1);
    assert_eq!(rt; law.stress(8_000_000), 230_000);
    assert_eq!(rt; law.stress(9_000_000), 237_500);
    assert_eq!(rt; law.stress(10_000_000), 245_000);
    assert_eq!(rt; law.stress(i32::MAX), 245_000);
    assert_eq!(rt;
        law.limits(),
        Limits {
            compression: 35_000_000,
            tension: 40_000_000,
        }
    );
    Ok(())
}

#[test]
fn counts(rt: HostRuntime) -> Result<(), Fail> {
    assert_eq!(rt; refused_count(rt.alloc(), 1)?, Some(Refusal::PointLawForm));
    assert_eq!(rt; refused_count(rt.alloc(), 2)?, None);
    assert_eq!(rt; refused_count(rt.alloc(), 16)?, None);
    assert_eq!(rt; refused_count(rt.alloc(), 17)?, Some(Refusal::PointLawForm));
    Ok(())
}

#[test]
fn limits(rt: HostRuntime) -> Result<(), Fail> {
    let ends = [at(-100_000_000, -300_000), at(100_000_000, 300_000)];
    assert_eq!(rt; refused(rt.alloc(), &ends, (1, 100_000_000))?, None);
    assert_eq!(rt; refused(rt.alloc(), &ends, (100_000_000, 1))?, None);
    assert_eq!(rt;
        refused(rt.alloc(), &ends, (0, 1))?,
        Some(Refusal::PointLawForm)
    );
    assert_eq!(rt;
        refused(rt.alloc(), &ends, (1, 0))?,
        Some(Refusal::PointLawForm)
    );
    assert_eq!(rt;
        refused(rt.alloc(), &ends, (100_000_001, 1))?,
        Some(Refusal::PointLawForm)
    );
    assert_eq!(rt;
        refused(rt.alloc(), &ends, (1, 100_000_001))?,
        Some(Refusal::PointLawForm)
    );
    Ok(())
}

#[test]
fn faults(rt: HostRuntime) -> Result<(), Fail> {
    let strain_below_range = [at(-100_000_001, 0), at(0, 0)];
    assert_eq!(rt;
        refused(rt.alloc(), &strain_below_range, (1, 1))?,
        Some(Refusal::LawPoint { point: 0 })
    );
    let stress_below_range = [at(0, -300_001), at(1, 0)];
    assert_eq!(rt;
        refused(rt.alloc(), &stress_below_range, (1, 1))?,
        Some(Refusal::LawPoint { point: 0 })
    );
    let strain_above_range = [at(0, 0), at(100_000_001, 0)];
    assert_eq!(rt;
        refused(rt.alloc(), &strain_above_range, (1, 1))?,
        Some(Refusal::LawPoint { point: 1 })
    );
    let stress_above_range = [at(0, 0), at(1, 300_001)];
    assert_eq!(rt;
        refused(rt.alloc(), &stress_above_range, (1, 1))?,
        Some(Refusal::LawPoint { point: 1 })
    );
    let strain_not_above = [at(0, 0), at(1, 1), at(1, 2)];
    assert_eq!(rt;
        refused(rt.alloc(), &strain_not_above, (1, 1))?,
        Some(Refusal::LawPoint { point: 2 })
    );
    let stress_below = [at(0, 0), at(1, 1), at(2, 0), at(2, -1)];
    assert_eq!(rt;
        refused(rt.alloc(), &stress_below, (1, 1))?,
        Some(Refusal::LawPoint { point: 2 })
    );
    Ok(())
}
