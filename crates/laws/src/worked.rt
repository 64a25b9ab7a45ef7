// Values of laws that were worked out by hand, as one fact about the definitions.
ghost use Rattle.laws.specs.Worked.{Worked};

pub fn worked_values_stand()
    ensures { Worked }
{}
