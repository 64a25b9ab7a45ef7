// Cards at the ends of every range, refused and handed back, and the laws that they make.
ghost use Rattle.std.specs.Prelude.{◌<◌};

use crate::states::CheckedCard;
use crate::two_line::{Plateaus, TwoLine};
use crate::written::{DeckFigures, Figures, SteelFigures, UhpcFigures, WrittenCard};
use laws::law::{Law, Limits};
use refusal::Refusal;
use std::process::Abort;
use std::test::Fail;

fn uhpc(figures: [f64; 5]) -> WrittenCard {
    Figures::Uhpc(figures.into())
}

fn deck(figures: [f64; 3]) -> WrittenCard {
    Figures::Deck(figures.into())
}

fn steel(figures: [f64; 3]) -> WrittenCard {
    Figures::Steel(figures.into())
}

// Why the check refuses a card, if it does.
fn refused(card: WrittenCard) -> Option<Refusal> {
    card.check().err().map(Refusal::from)
}

fn checked(card: WrittenCard) -> Result<CheckedCard, Fail> {
    Ok(card.check().map_err(Refusal::from)?)
}

// Why the reduction refuses a card, if it does.
fn unreduced(card: CheckedCard, alpha: i64, gamma: i64) -> Option<Refusal> {
    card.reduce(alpha, gamma).err().map(Refusal::from)
}

fn law(card: WrittenCard, alpha: i64, gamma: i64) -> Result<TwoLine, Fail> {
    let reduced = checked(card)?.reduce(alpha, gamma).map_err(Refusal::from)?;
    Ok(reduced.law())
}

const NAN: f64 = 0.0 / 0.0;

const INFINITE: f64 = 1.0 / 0.0;

// What lies just outside a range, and what lies outside every range.
fn outside(under: f64, over: f64) -> [f64; 7] {
    [under, over, NAN, INFINITE, -INFINITE, 0.0, -1.0]
}

// The figures with another one in one place.
fn replaced<const N: usize>(figures: [f64; N], place: usize, figure: f64) -> [f64; N]
    requires { place < N }
{
    let mut figures = figures;
    figures[place] = figure;
    figures
}

// A kind of card, by its figures in their order.
trait Kind<const N: usize> {
    fn card(figures: [f64; N]) -> WrittenCard;
}

impl Kind<5> for UhpcFigures<f64> {
    fn card(figures: [f64; 5]) -> WrittenCard {
        uhpc(figures)
    }
}

impl Kind<3> for DeckFigures<f64> {
    fn card(figures: [f64; 3]) -> WrittenCard {
        deck(figures)
    }
}

impl Kind<3> for SteelFigures<f64> {
    fn card(figures: [f64; 3]) -> WrittenCard {
        steel(figures)
    }
}

// Each figure is refused by its place, where it alone lies outside its range.
fn each_is_refused<const N: usize, K: Kind<N>>(
    rt: &impl Abort,
    low: [f64; N],
    under: [f64; N],
    over: [f64; N],
)
    requires { N < 256 }
{
    for (place, (under, over)) in under.iter().zip(&over).enumerate() {
        for x in outside(*under, *over) {
            let figure = place as u8;
            assert_eq!(rt;
                refused(K::card(replaced(low, place, x))),
                Some(Refusal::CardFigure { figure })
            );
        }
    }
}

#[test]
fn uhpc_ends(rt: HostRuntime) {
    let low = [100.0, 17.5, 0.75, 0.001, 0.0025];
    let high = [40000.0, 40.0, 5.0, 0.1, 0.1];
    assert_eq!(rt; refused(uhpc(low)), None);
    assert_eq!(rt; refused(uhpc(high)), None);
    let under = [
        99.99999999999999,
        17.499999999999996,
        0.7499999999999999,
        0.0009999999999999998,
        0.0024999999999999996,
    ];
    let over = [
        40000.00000000001,
        40.00000000000001,
        5.000000000000001,
        0.10000000000000002,
        0.10000000000000002,
    ];
    each_is_refused::<5, UhpcFigures<f64>>(&rt, low, under, over);
    assert_eq!(rt;
        refused(uhpc([100.0, 17.0, 0.75, NAN, 0.1])),
        Some(Refusal::CardFigure { figure: 1 }),
        "the first bad figure"
    );
}

#[test]
fn deck_ends(rt: HostRuntime) {
    let low = [100.0, 2.0, 0.001];
    assert_eq!(rt; refused(deck(low)), None);
    assert_eq!(rt; refused(deck([40000.0, 20.0, 0.1])), None);
    let under = [99.99999999999999, 1.9999999999999998, 0.0009999999999999998];
    let over = [40000.00000000001, 20.000000000000004, 0.10000000000000002];
    each_is_refused::<3, DeckFigures<f64>>(&rt, low, under, over);
}

#[test]
fn steel_ends(rt: HostRuntime) {
    let low = [100.0, 1.0, 0.001];
    assert_eq!(rt; refused(steel(low)), None);
    assert_eq!(rt; refused(steel([40000.0, 300.0, 0.1])), None);
    let under = [99.99999999999999, 0.9999999999999999, 0.0009999999999999998];
    let over = [40000.00000000001, 300.00000000000006, 0.10000000000000002];
    each_is_refused::<3, SteelFigures<f64>>(&rt, low, under, over);
}

#[test]
fn cards_come_back(rt: HostRuntime) -> Result<(), Fail> {
    let Err(back) = uhpc([6500.0, 20.0, 6.0, 0.0035, 0.0045]).check() else {
        return Err(Fail::new("taken"));
    };
    let Figures::Uhpc(f) = back.card else {
        return Err(Fail::new("another kind"));
    };
    assert_eq!(rt;
        [
            f.modulus,
            f.strength,
            f.cracking,
            f.ultimate,
            f.localization,
        ],
        [6500.0, 20.0, 6.0, 0.0035, 0.0045]
    );
    let card = checked(uhpc([6500.0, 20.0, 1.0, 0.0035, 0.0045]))?;
    let Err(back) = card.reduce(850, 851) else {
        return Err(Fail::new("taken"));
    };
    assert_eq!(rt; back.refusal, Refusal::Factor { factor: 1 });
    let reduced = back.card.reduce(850, 850).map_err(Refusal::from)?;
    assert_eq!(rt;
        reduced.law().plateaus(),
        Plateaus {
            compression: 17_000,
            tension: 850,
        }
    );
    Ok(())
}

#[test]
fn factors(rt: HostRuntime) -> Result<(), Fail> {
    let cases = [
        (0, 850, Some(0)),
        (851, 0, Some(0)),
        (i64::MIN, 1, Some(0)),
        (i64::MAX, 1, Some(0)),
        (1, 0, Some(1)),
        (850, 851, Some(1)),
        (1, i64::MIN, Some(1)),
        (1, 1, None),
        (850, 850, None),
    ];
    for (alpha, gamma, place) in cases {
        let want = place.map(|factor| Refusal::Factor { factor });
        assert_eq!(rt;
            unreduced(
                checked(uhpc([6500.0, 20.0, 1.0, 0.0035, 0.0045]))?,
                alpha,
                gamma,
            ),
            want
        );
        assert_eq!(rt;
            unreduced(checked(deck([4000.0, 5.5, 0.003]))?, alpha, gamma),
            want
        );
        assert_eq!(rt;
            unreduced(checked(steel([29000.0, 60.0, 0.09]))?, alpha, gamma),
            want
        );
    }
    Ok(())
}

#[test]
fn laws_of_cards(rt: HostRuntime) -> Result<(), Fail> {
    let concrete = law(uhpc([6500.0, 20.0, 1.0, 0.0035, 0.0045]), 850, 850)?;
    assert_eq!(rt; concrete.modulus(), 6_500_000);
    assert_eq!(rt;
        concrete.plateaus(),
        Plateaus {
            compression: 17_000,
            tension: 850,
        }
    );
    assert_eq!(rt;
        concrete.limits(),
        Limits {
            compression: 3_500_000,
            tension: 3_825_000,
        }
    );
    for (strain, stress) in [
        (153, 0),
        (154, 1),
        (-1_000, -6),
        (130_769, 849),
        (130_770, 850),
        (i32::MIN, -17_000),
        (i32::MAX, 850),
    ] {
        assert_eq!(rt; concrete.stress(strain), stress);
    }
    // Halves go away from zero: 17,500.5 psi and 1,000,000.5 nano.
    let half = law(
        uhpc([100.0005, 17.5005, 0.7505, 0.0010000005, 0.0025000005]),
        850,
        1,
    )?;
    assert_eq!(rt; half.modulus(), 100_001);
    assert_eq!(rt;
        half.plateaus(),
        Plateaus {
            compression: 14_875,
            tension: 0,
        }
    );
    assert_eq!(rt;
        half.limits(),
        Limits {
            compression: 1_000_001,
            tension: 2_500,
        }
    );
    let slab = law(deck([4000.0, 5.5, 0.003]), 850, 1)?;
    assert_eq!(rt;
        slab.plateaus(),
        Plateaus {
            compression: 4_675,
            tension: 0,
        }
    );
    assert_eq!(rt;
        slab.limits(),
        Limits {
            compression: 3_000_000,
            tension: 100_000_000,
        }
    );
    let bar = law(steel([29000.0, 60.0, 0.09]), 1, 1)?;
    assert_eq!(rt;
        bar.plateaus(),
        Plateaus {
            compression: 60_000,
            tension: 60_000,
        }
    );
    assert_eq!(rt;
        bar.limits(),
        Limits {
            compression: 90_000_000,
            tension: 90_000_000,
        }
    );
    Ok(())
}
