// A whole number from 1 to a greatest one.
ghost use Rattle.std.specs.Prelude.{◌≤◌};

#[derive(Clone, Copy, PartialEq, Eq, Debug)]
pub struct UpTo<const MOST: u32> {
    pub number: u32,
    ghost least: { 1 ≤ number },
    ghost most: { number ≤ MOST },
}

// The number is below 1 or above the greatest.
#[derive(Clone, Copy, PartialEq, Eq, Debug)]
pub struct OutOfRange;

impl<const MOST: u32> TryFrom<i64> for UpTo<MOST> {
    ghost use Rattle.laws.specs.Range.{FromOneTo};

    type Error = OutOfRange;

    ghost try_from_gives = { λ z r. FromOneTo MOST z r };

    fn try_from(number: i64) -> Result<UpTo<MOST>, OutOfRange> {
        if (1..=MOST as i64).contains(&number) {
            Ok(UpTo {
                number: number as u32,
            })
        } else {
            Err(OutOfRange)
        }
    }
}
