// A list of laws of one type as a kit.
ghost use Rattle.std.specs.Prelude.{◌≡◌, map, Some, None, MatchOption};
ghost use Rattle.kits.specs.Kits.{reached as reached_of};
ghost use Rattle.kits.specs.KitsLawful.{map_lawful};

use crate::kit::{Kit, MOST_LAWS};
use laws::law::{Law, Limits};

// The law of a number, if the number reaches one.
fn reached<L: Law>(laws: &[L], number: usize) -> Option<&L>
    ensures { MatchOption result (reached_of (map L.meaning laws.now) number ≡ None) (λ law. reached_of (map L.meaning laws.now) number ≡ Some (L.meaning law.now)) }
{
    if number < MOST_LAWS {
        laws.get(number)
    } else {
        None
    }
}

// A law has its place in the list as its number.
impl<L: Law> Kit for Vec<L> {
    ghost laws = { λ s. map L.Law.meaning s.items };

    ghost lawful = { λ s. map_lawful L.Law.meaning L.Law.lawful s.items };

    fn count(&self) -> u8 {
        self.len().min(MOST_LAWS) as u8
    }

    fn stress(&self, number: usize, strain: i32) -> Option<i32> {
        Some(reached(self, number)?.stress(strain))
    }

    fn limits(&self, number: usize) -> Option<Limits> {
        Some(reached(self, number)?.limits())
    }
}
