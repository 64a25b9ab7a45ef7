// A curvature that a section may be asked at.
ghost use Rattle.std.specs.Prelude.{◌≤◌};

use refusal::Refusal;

const MOST_CURVATURE: u32 = 65_535;

// In nano for each sixteenth of an inch of depth.
#[derive(Clone, Copy)]
pub(crate) struct Curvature {
    pub(crate) number: u32,
    ghost gentle: { number ≤ 65535 },
}

// Refused by 11 where the number is too large.
impl TryFrom<u32> for Curvature {
    ghost use Rattle.section.specs.Curvatures.{TakesCurvature};

    type Error = Refusal;

    ghost try_from_gives = { TakesCurvature };

    fn try_from(number: u32) -> Result<Curvature, Refusal> {
        if number > MOST_CURVATURE {
            return Err(Refusal::TooCurved);
        }
        Ok(Curvature { number })
    }
}
