// The top strains that the limits of fibres admit, and the fibres that set their ends.
ghost use Rattle.std.specs.Prelude.{◌≡◌, if◌then◌else◌, int_lt};

// A top strain in nano, and the position of the fibre whose limit sets it.
#[derive(Clone, Copy)]
pub(crate) struct End {
    pub(crate) top: i32,
    pub(crate) fibre: u16,
}

// The least and the greatest top strain that are admitted, if any is.
#[derive(Clone, Copy)]
pub(crate) struct Range {
    pub(crate) least: End,
    pub(crate) greatest: End,
}

impl Range {
    // What two ranges share; where both set an end alike, the fibre of the first stays.
    pub(crate) fn shared(self, second: Range) -> Range
        ensures least { result.least ≡ (if int_lt self.least.top second.least.top then second.least else self.least) }
        ensures greatest { result.greatest ≡ (if int_lt second.greatest.top self.greatest.top then second.greatest else self.greatest) }
    {
        Range {
            least: if self.least.top < second.least.top {
                second.least
            } else {
                self.least
            },
            greatest: if second.greatest.top < self.greatest.top {
                second.greatest
            } else {
                self.greatest
            },
        }
    }
}
