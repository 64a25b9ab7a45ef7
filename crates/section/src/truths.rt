// What every ask is true to, as one fact about the definitions.
ghost use Rattle.section.specs.Truths.{Truths};

pub fn truths_of_an_ask_stand()
    ensures { Truths }
{}
