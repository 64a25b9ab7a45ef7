// Why a call is refused: the one list of refusals, the number and the places of each, and how it prints.
#![tactic(auto)]

ghost use Rattle.std.specs.Prelude.{◌≡◌, Some};
ghost use Rattle.refusal.specs.Refusals.{number as number_of, places as places_of, listed, line, sentence as sentence_of};

use std::fmt;

// The figures of a card, of a fibre and of a load, the factors of a card, the points of a law and the fibres of a section are named by their place, from 0, since that is what a refusal prints.
#[derive(Clone, Copy, PartialEq, Eq, Debug)]
pub enum Refusal {
    // a figure of a card is not a number or lies outside its range
    CardFigure { figure: u8 },
    // a factor lies outside 1 to 850: 0 is alpha, 1 is gamma
    Factor { factor: u8 },
    // there are fewer than 2 or more than 16 points, or a limit lies outside its range
    PointLawForm,
    // a point of a law lies outside its range or out of order
    LawPoint { point: u8 },
    // the section is not in a state that allows the call
    OutOfTurn,
    // the section has 512 fibres already
    FullSection,
    // a figure of a fibre lies outside its range: 0 is the depth, 1 the area, 2 the initial strain
    FibreFigure { figure: u8 },
    // no law has that number
    NoLaw,
    // no fibre stands at that position, here as it was written
    NoFibre { position: i64 },
    // a figure of the load lies outside its range: 0 is the load, 1 its depth
    LoadFigure { figure: u8 },
    // the curvature lies above 65,535
    TooCurved,
    // the section has no fibre
    EmptySection,
    // no top strain is admitted: the fibre whose compression limit sets the least, and the one whose tension limit sets the greatest
    NoneAdmitted { compressed: u16, stretched: u16 },
    // the force at the least admitted top strain is above the load: the fibre whose compression limit sets it
    Crushed { fibre: u16 },
    // the force at the greatest admitted top strain is below the load: the fibre whose tension limit sets it
    Parted { fibre: u16 },
    // no strain within the limits of the law reaches the stress
    OutOfReach,
}

// What a refusal points at, in the order in which it prints.
#[derive(Clone, Copy, PartialEq, Eq, Debug)]
pub enum Places {
    Nowhere,
    One(i64),
    Two(i64, i64),
}

impl Refusal {
    pub fn number(&self) -> u8
        ensures { result ≡ number_of self.now }
    {
        match self {
            Refusal::CardFigure { .. } => 1,
            Refusal::Factor { .. } => 2,
            Refusal::PointLawForm => 3,
            Refusal::LawPoint { .. } => 4,
            Refusal::OutOfTurn => 5,
            Refusal::FullSection => 6,
            Refusal::FibreFigure { .. } => 7,
            Refusal::NoLaw => 8,
            Refusal::NoFibre { .. } => 9,
            Refusal::LoadFigure { .. } => 10,
            Refusal::TooCurved => 11,
            Refusal::EmptySection => 12,
            Refusal::NoneAdmitted { .. } => 13,
            Refusal::Crushed { .. } => 14,
            Refusal::Parted { .. } => 15,
            Refusal::OutOfReach => 16,
        }
    }

    pub fn places(&self) -> Places
        ensures { listed result ≡ places_of self.now }
    {
        match *self {
            Refusal::CardFigure { figure } => Places::One(figure as i64),
            Refusal::Factor { factor } => Places::One(factor as i64),
            Refusal::PointLawForm => Places::Nowhere,
            Refusal::LawPoint { point } => Places::One(point as i64),
            Refusal::OutOfTurn => Places::Nowhere,
            Refusal::FullSection => Places::Nowhere,
            Refusal::FibreFigure { figure } => Places::One(figure as i64),
            Refusal::NoLaw => Places::Nowhere,
            Refusal::NoFibre { position } => Places::One(position),
            Refusal::LoadFigure { figure } => Places::One(figure as i64),
            Refusal::TooCurved => Places::Nowhere,
            Refusal::EmptySection => Places::Nowhere,
            Refusal::NoneAdmitted {
                compressed,
                stretched,
            } => Places::Two(compressed as i64, stretched as i64),
            Refusal::Crushed { fibre } => Places::One(fibre as i64),
            Refusal::Parted { fibre } => Places::One(fibre as i64),
            Refusal::OutOfReach => Places::Nowhere,
        }
    }

    // The refusal in words, for people; it stays off the line that is printed.
    pub fn sentence(&self) -> &'static str
        ensures { result.now ≡ sentence_of self.now }
    {
        match self {
            Refusal::CardFigure { .. } =>
                "a figure of the card is not a number or lies outside its range; the place counts the figures from 0",
            Refusal::Factor { .. } =>
                "a factor lies outside 1 to 850 thousandths; place 0 is alpha, place 1 is gamma",
            Refusal::PointLawForm =>
                "a point law has 2 to 16 points, and limits of 1 to 100,000,000 nano each",
            Refusal::LawPoint { .. } =>
                "a point of the law lies outside its range or out of order; the place counts the points from 0",
            Refusal::OutOfTurn => "the state of the section does not allow the call",
            Refusal::FullSection => "the section has 512 fibres already",
            Refusal::FibreFigure { .. } =>
                "a figure of the fibre lies outside its range; place 0 is the depth, place 1 the area, place 2 the initial strain",
            Refusal::NoLaw => "no material has that number",
            Refusal::NoFibre { .. } =>
                "no fibre stands at that position; the place is the position as written",
            Refusal::LoadFigure { .. } =>
                "a figure of the load lies outside its range; place 0 is the load, place 1 its depth",
            Refusal::TooCurved => "the curvature lies above 65,535",
            Refusal::EmptySection => "the section has no fibre",
            Refusal::NoneAdmitted { .. } =>
                "the limits admit no top strain; the places are the fibre whose compression limit sets the least and the fibre whose tension limit sets the greatest, counted from 0",
            Refusal::Crushed { .. } =>
                "the force at the least admitted top strain is above the load; the place is the fibre whose compression limit sets it, counted from 0",
            Refusal::Parted { .. } =>
                "the force at the greatest admitted top strain is below the load; the place is the fibre whose tension limit sets it, counted from 0",
            Refusal::OutOfReach =>
                "no strain within the limits of the material reaches that stress",
        }
    }
}

// `R`, the number, then the places, one space between.
impl fmt::Display for Refusal {
    ghost output = { λ x. Some (line x) };

    fn fmt<W: fmt::Write>(&self, f: &mut fmt::Formatter<W>) -> fmt::Result {
        let number = self.number();
        match self.places() {
            Places::Nowhere => write!(f, "R {number}"),
            Places::One(place) => write!(f, "R {number} {place}"),
            Places::Two(first, second) => write!(f, "R {number} {first} {second}"),
        }
    }
}
