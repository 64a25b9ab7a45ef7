// The two-line law as a law: its stress at a strain, and its limits.
ghost use Rattle.std.specs.Prelude.{◌≡◌, ◌≤◌};
ghost use Rattle.laws.specs.TwoLine.{elastic as elastic_of};
ghost use Rattle.laws.proofs.TwoLine.{two_line_lawful};
ghost use Rattle.cards.specs.Lines.{lines, meaning_of};

use super::TwoLine;
use laws::law::{Law, Limits};

// The modulus times the strain, in whole psi.
fn elastic(modulus: u32, strain: i32) -> i64
    requires { modulus ≤ 40000000 }
    ensures { result ≡ elastic_of modulus strain }
{
    let product = modulus as i64 * strain as i64;
    product / 1_000_000_000
}

impl Law for TwoLine {
    ghost meaning = { λ s. meaning_of (lines s) };

    ghost lawful = { λ s. two_line_lawful s.modulus s.plateaus.compression s.plateaus.tension s.limits.compression s.limits.tension s.compression_in s.tension_in s.shortest_in s.longest_in };

    fn stress(&self, strain: i32) -> i32 {
        let capped = elastic(self.modulus, strain).min(self.plateaus.tension as i64);
        capped.max(-(self.plateaus.compression as i64)) as i32
    }

    fn limits(&self) -> Limits {
        self.limits
    }
}
