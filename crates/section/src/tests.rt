// Two layers of one square inch, of a law that gains one psi with each 1,000 nano up to 1,000 psi either way.
use crate::ends::Ends;
use crate::section::Section;
use kits::single::Single;
use laws::point::Point;
use laws::point_law::PointLaw;
use refusal::Refusal;
use std::alloc::Global;
use std::process::Abort;
use std::test::Fail;

fn bare(heap: Global) -> Result<Section<Single<PointLaw>>, Fail> {
    let points = [
        Point {
            strain: -1_000_000,
            stress: -1000,
        },
        Point {
            strain: 1_000_000,
            stress: 1000,
        },
    ];
    let law = PointLaw::new(points.to_vec(heap)?, 2_000_000, 2_000_000)?;
    Ok(Section::new(heap, Single(law))?)
}

fn layered(rt: &impl Abort, heap: Global) -> Result<Section<Single<PointLaw>>, Fail> {
    let mut section = bare(heap)?;
    assert_eq!(rt; section.put(0, 1000, 0, 0), Ok(0));
    assert_eq!(rt; section.put(100, 1000, 0, 0), Ok(1));
    Ok(section)
}

fn answers(
    rt: &impl Abort,
    section: &mut Section<Single<PointLaw>>,
    load: i64,
    load_depth: i64,
    curvature: u32,
    answer: Result<Ends, Refusal>,
) {
    assert_eq!(rt; section.load(load, load_depth), Ok(()));
    assert_eq!(rt; section.ask(curvature), answer);
}

fn ends(first: i32, last: i32, moment: i64) -> Result<Ends, Refusal> {
    Ok(Ends {
        first,
        last,
        first_moment: moment,
        last_moment: moment,
    })
}

#[test]
fn balanced(rt: HostRuntime) -> Result<(), Fail> {
    let mut section = layered(&rt, rt.alloc())?;
    answers(
        &rt,
        &mut section,
        0,
        0,
        10_000,
        ends(-500_000, -499_001, 50_000_000),
    );
    answers(
        &rt,
        &mut section,
        2000,
        100,
        10_000,
        ends(-499_000, -498_001, 49_900_000),
    );
    Ok(())
}

#[test]
fn unbalanced(rt: HostRuntime) -> Result<(), Fail> {
    let mut section = layered(&rt, rt.alloc())?;
    let apart = Ends {
        first: -499_000,
        last: -499_001,
        first_moment: 50_100_000,
        last_moment: 50_000_000,
    };
    answers(&rt, &mut section, 1, 0, 10_000, Ok(apart));
    Ok(())
}

#[test]
fn refused(rt: HostRuntime) -> Result<(), Fail> {
    let mut section = layered(&rt, rt.alloc())?;
    answers(&rt, &mut section, 0, 0, 65_536, Err(Refusal::TooCurved));
    answers(
        &rt,
        &mut bare(rt.alloc())?,
        0,
        0,
        65_535,
        Err(Refusal::EmptySection),
    );
    let none = Refusal::NoneAdmitted {
        compressed: 0,
        stretched: 1,
    };
    answers(&rt, &mut section, 0, 0, 65_535, Err(none));
    answers(
        &rt,
        &mut section,
        -2_000_001,
        0,
        0,
        Err(Refusal::Crushed { fibre: 0 }),
    );
    answers(
        &rt,
        &mut section,
        2_000_001,
        0,
        0,
        Err(Refusal::Parted { fibre: 0 }),
    );
    answers(
        &rt,
        &mut section,
        2_000_001,
        0,
        10_000,
        Err(Refusal::Parted { fibre: 1 }),
    );
    Ok(())
}
