// What a line of a job asks for.
ghost use Rattle.std.specs.Prelude.{◌≡◌, Some, MatchResult};
ghost use Rattle.job.specs.Forms.{spelling, form as form_of};
ghost use Rattle.job.specs.Commands.{card_name};
ghost use Rattle.job.specs.Faults.{NamesCommand};
ghost use Rattle.job.specs.Jobs.{Makes, MakesNone};
ghost use Rattle.laws.specs.Points.{PointsTaken, PointsRefused};

use crate::fault::Fault;
use cards::two_line::TwoLine;
use cards::written::WrittenCard;
use laws::point::Point;
use laws::point_law::PointLaw;
use refusal::Refusal;
use std::fmt;
use std::str::FromStr;

#[derive(Drop)]
pub enum Command {
    // check and reduce the card, and keep its law
    Card(CardLine),
    // keep the law through the points
    Points(PointsLine),
    // the stress of a material at a strain
    Stress { number: i64, strain: i32 },
    // the least strain at which a material carries a stress
    Reach { number: i64, stress: i32 },
}

// A card, and the factors that reduce it.
#[derive(Drop)]
pub struct CardLine {
    pub card: WrittenCard,
    pub alpha: i64,
    pub gamma: i64,
}

impl CardLine {
    // The law that the card makes with these factors.
    pub(crate) fn law(self) -> Result<TwoLine, Refusal>
        ensures { MatchResult result (λ l. Makes self l) (λ e. MakesNone self e) }
    {
        Ok(self.card.check()?.reduce(self.alpha, self.gamma)?.law())
    }
}

// Points, and the limits of the law through them.
#[derive(Drop)]
pub struct PointsLine {
    pub points: Vec<Point>,
    pub compression: i64,
    pub tension: i64,
}

impl PointsLine {
    // The law through the points with these limits.
    pub(crate) fn law(self) -> Result<PointLaw, Refusal>
        ensures { MatchResult result (λ l. PointsTaken self.points.items self.compression self.tension l.points.items l.limits) (λ e. PointsRefused self.points.items self.compression self.tension e) }
    {
        PointLaw::new(self.points, self.compression, self.tension)
    }
}

// The words that begin a command.
#[derive(Clone, Copy, PartialEq, Eq, Debug)]
pub enum Name {
    Uhpc,
    Deck,
    Steel,
    Points,
    Stress,
    Reach,
}

impl Name {
    // How the command is written.
    pub(crate) fn form(&self) -> &'static str
        ensures { result.now ≡ form_of self.now }
    {
        match self {
            Name::Uhpc =>
                "expected uhpc MODULUS STRENGTH CRACKING ULTIMATE LOCALIZATION ALPHA GAMMA",
            Name::Deck => "expected deck MODULUS STRENGTH ULTIMATE ALPHA GAMMA",
            Name::Steel => "expected steel MODULUS YIELD RUPTURE ALPHA GAMMA",
            Name::Points =>
                "expected points COMPRESSION TENSION and then STRAIN STRESS for each point",
            Name::Stress => "expected stress NUMBER STRAIN",
            Name::Reach => "expected reach NUMBER STRESS",
        }
    }
}

impl FromStr for Name {
    type Err = Fault;

    ghost from_str_gives = { NamesCommand };

    fn from_str(text: &str) -> Result<Name, Fault> {
        match text {
            "uhpc" => Ok(Name::Uhpc),
            "deck" => Ok(Name::Deck),
            "steel" => Ok(Name::Steel),
            "points" => Ok(Name::Points),
            "stress" => Ok(Name::Stress),
            "reach" => Ok(Name::Reach),
            _ => Err(Fault::Unknown),
        }
    }
}

impl fmt::Display for Name {
    ghost output = { λ x. Some (spelling x) };

    fn fmt<W: fmt::Write>(&self, f: &mut fmt::Formatter<W>) -> fmt::Result {
        f.write_str(match self {
            Name::Uhpc => "uhpc",
            Name::Deck => "deck",
            Name::Steel => "steel",
            Name::Points => "points",
            Name::Stress => "stress",
            Name::Reach => "reach",
        })
    }
}

impl From<&WrittenCard> for Name {
    ghost from_gives = { λ card name. name ≡ card_name card.now };

    fn from(card: &WrittenCard) -> Name {
        match card {
            WrittenCard::Uhpc(_) => Name::Uhpc,
            WrittenCard::Deck(_) => Name::Deck,
            WrittenCard::Steel(_) => Name::Steel,
        }
    }
}
