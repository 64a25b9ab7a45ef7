// Sections that are filled, emptied and loaded, and what is refused of each call.
use super::Section;
use kits::single::Single;
use laws::point::Point;
use laws::point_law::PointLaw;
use refusal::Refusal;
use std::alloc::Global;
use std::process::Abort;
use std::test::Fail;

// A section whose kit has one law, with so many fibres, each at its position as its depth.
fn filled(rt: &impl Abort, heap: Global, count: u16) -> Result<Section<Single<PointLaw>>, Fail> {
    let points = [
        Point {
            strain: 0,
            stress: 0,
        },
        Point {
            strain: 1,
            stress: 1,
        },
    ];
    let law = PointLaw::new(points.to_vec(heap)?, 1, 1)?;
    let mut section = Section::new(heap, Single(law))?;
    for position in 0..count {
        assert_eq!(rt; section.put(position as i64, 1, 0, 0), Ok(position));
    }
    Ok(section)
}

fn depth_at(section: &Section<Single<PointLaw>>, position: usize) -> Option<u32> {
    section.row.fibres.get(position).map(|fibre| fibre.depth)
}

#[test]
fn room(rt: HostRuntime) -> Result<(), Fail> {
    let mut section = filled(&rt, rt.alloc(), 512)?;
    assert_eq!(rt; section.put(0, 1, 0, 0), Err(Refusal::FullSection));
    assert_eq!(rt; section.put(-1, 0, 1, 0), Err(Refusal::FullSection));
    assert_eq!(rt; section.take(511), Ok(()));
    assert_eq!(rt; section.put(4_096, 1, 0, 0), Ok(511));
    assert_eq!(rt; depth_at(&section, 511), Some(4_096));
    Ok(())
}

#[test]
fn figures_of_a_fibre(rt: HostRuntime) -> Result<(), Fail> {
    let mut section = filled(&rt, rt.alloc(), 0)?;
    let depth = Err(Refusal::FibreFigure { figure: 0 });
    assert_eq!(rt; section.put(-1, 0, 1, 100_000_001), depth);
    assert_eq!(rt; section.put(4_097, 1, 0, 0), depth);
    assert_eq!(rt; section.put(i64::MIN, 1, 0, 0), depth);
    let area = Err(Refusal::FibreFigure { figure: 1 });
    assert_eq!(rt; section.put(0, 0, 1, 100_000_001), area);
    assert_eq!(rt; section.put(0, 2_000_001, 0, 0), area);
    assert_eq!(rt; section.put(0, i64::MAX, 0, 0), area);
    let initial = Err(Refusal::FibreFigure { figure: 2 });
    assert_eq!(rt; section.put(0, 1, 1, 100_000_001), initial);
    assert_eq!(rt; section.put(0, 1, 0, -100_000_001), initial);
    assert_eq!(rt; section.put(0, 1, 0, i64::MIN), initial);
    assert_eq!(rt; section.put(4_096, 2_000_000, 0, 100_000_000), Ok(0));
    assert_eq!(rt; section.put(0, 1, 0, -100_000_000), Ok(1));
    Ok(())
}

#[test]
fn materials(rt: HostRuntime) -> Result<(), Fail> {
    let mut section = filled(&rt, rt.alloc(), 0)?;
    assert_eq!(rt; section.put(0, 1, -1, 0), Err(Refusal::NoLaw));
    assert_eq!(rt; section.put(0, 1, 1, 0), Err(Refusal::NoLaw));
    assert_eq!(rt; section.put(0, 1, 256, 0), Err(Refusal::NoLaw));
    assert_eq!(rt; section.put(0, 1, i64::MAX, 0), Err(Refusal::NoLaw));
    assert_eq!(rt; section.put(0, 1, i64::MIN, 0), Err(Refusal::NoLaw));
    assert_eq!(rt; section.put(0, 1, 0, 0), Ok(0));
    Ok(())
}

#[test]
fn positions(rt: HostRuntime) -> Result<(), Fail> {
    let mut section = filled(&rt, rt.alloc(), 5)?;
    assert_eq!(rt; section.take(2), Ok(()));
    assert_eq!(rt; section.take(0), Ok(()));
    assert_eq!(rt; section.take(2), Ok(()));
    assert_eq!(rt; depth_at(&section, 0), Some(1));
    assert_eq!(rt; depth_at(&section, 1), Some(3));
    assert_eq!(rt; depth_at(&section, 2), None);
    assert_eq!(rt; section.take(-1), Err(Refusal::NoFibre { position: -1 }));
    assert_eq!(rt; section.take(2), Err(Refusal::NoFibre { position: 2 }));
    let last = i64::MAX;
    assert_eq!(rt;
        section.take(last),
        Err(Refusal::NoFibre { position: last })
    );
    Ok(())
}

#[test]
fn loads(rt: HostRuntime) -> Result<(), Fail> {
    let mut section = filled(&rt, rt.alloc(), 0)?;
    let force = Err(Refusal::LoadFigure { figure: 0 });
    assert_eq!(rt; section.load(400_000_000_000_001, -1), force);
    assert_eq!(rt; section.load(-400_000_000_000_001, 0), force);
    assert_eq!(rt; section.load(i64::MIN, 0), force);
    let depth = Err(Refusal::LoadFigure { figure: 1 });
    assert_eq!(rt; section.load(0, -1), depth);
    assert_eq!(rt; section.load(0, 4_097), depth);
    assert_eq!(rt; section.load(0, i64::MAX), depth);
    assert_eq!(rt; section.load(400_000_000_000_000, 0), Ok(()));
    assert_eq!(rt; section.load(-400_000_000_000_000, 4_096), Ok(()));
    assert_eq!(rt; section.load(0, -1), depth);
    assert_eq!(rt; section.load.force, -400_000_000_000_000);
    assert_eq!(rt; section.load.depth, 4_096);
    Ok(())
}
