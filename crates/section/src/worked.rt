// Asks that were worked out by hand, as one fact about the definitions.
ghost use Rattle.section.specs.Worked.{Worked};

pub fn worked_sections_stand()
    ensures { Worked }
{}
