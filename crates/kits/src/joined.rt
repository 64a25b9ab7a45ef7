// Two kits joined to one.
ghost use Rattle.std.specs.Prelude.{◌≡◌};
ghost use Rattle.kits.specs.Joined.{joined_laws, JoinedLaws};
ghost use Rattle.kits.specs.KitsLawful.{append_lawful};

use crate::kit::{Kit, MOST_LAWS};
use laws::law::Limits;

// The second kit's numbers go on after the first's.
#[derive(Drop)]
pub struct Joined<First, Second>(pub First, pub Second);

// A number of the joined kit as the number of one of the two.
enum Side {
    First(usize),
    Second(usize),
}

impl<First: Kit, Second: Kit> Joined<First, Second> {
    ghost use Rattle.kits.specs.Joined.{OnSide};

    // Whose law the number reaches, if it can reach one.
    fn side(&self, number: usize) -> Option<Side>
        ensures { OnSide (First.Kit.laws self.now.0) (Second.Kit.laws self.now.1) number result }
    {
        let first = self.0.count() as usize;
        if number < first {
            Some(Side::First(number))
        } else if number < MOST_LAWS {
            Some(Side::Second(number - first))
        } else {
            None
        }
    }
}

impl<First: Kit, Second: Kit> Kit for Joined<First, Second> {
    ghost laws = { joined_laws First.Kit.laws Second.Kit.laws };

    ghost lawful = { λ s. append_lawful (First.Kit.laws s.0) (Second.Kit.laws s.1) (First.Kit.lawful s.0) (Second.Kit.lawful s.1) };

    fn count(&self) -> u8 {
        self.0.count().saturating_add(self.1.count())
    }

    fn stress(&self, number: usize, strain: i32) -> Option<i32> {
        match self.side(number)? {
            Side::First(own) => self.0.stress(own, strain),
            Side::Second(own) => self.1.stress(own, strain),
        }
    }

    fn limits(&self, number: usize) -> Option<Limits> {
        match self.side(number)? {
            Side::First(own) => self.0.limits(own),
            Side::Second(own) => self.1.limits(own),
        }
    }
}

// One kit of the first's laws and then the second's.
pub fn join<First: Kit, Second: Kit>(first: First, second: Second) -> Joined<First, Second>
    ensures { JoinedLaws (First.Kit.laws first) (Second.Kit.laws second) (joined_laws First.Kit.laws Second.Kit.laws result) }
{
    Joined(first, second)
}

// Joining is associative: whichever two of three kits are joined first, the laws are the same by the same numbers.
pub fn regroup<First: Kit, Second: Kit, Third: Kit>(
    kit: Joined<Joined<First, Second>, Third>,
) -> Joined<First, Joined<Second, Third>>
    ensures { joined_laws First.Kit.laws (joined_laws Second.Kit.laws Third.Kit.laws) result ≡ joined_laws (joined_laws First.Kit.laws Second.Kit.laws) Third.Kit.laws kit }
{
    let Joined(Joined(first, second), third) = kit;
    Joined(first, Joined(second, third))
}
