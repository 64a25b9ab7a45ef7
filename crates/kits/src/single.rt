// One law as a kit.
ghost use Rattle.std.specs.Prelude.{[], ◌∷◌};

use crate::kit::Kit;
use laws::law::{Law, Limits};

// The law has the number 0.
#[derive(Drop)]
pub struct Single<L>(pub L);

impl<L: Law> Kit for Single<L> {
    ghost laws = { λ s. L.Law.meaning s.0 ∷ [] };

    ghost lawful = { λ s. (L.Law.lawful s.0, tt) };

    fn count(&self) -> u8 {
        1
    }

    fn stress(&self, number: usize, strain: i32) -> Option<i32> {
        (number == 0).then(|| self.0.stress(strain))
    }

    fn limits(&self, number: usize) -> Option<Limits> {
        (number == 0).then(|| self.0.limits())
    }
}
