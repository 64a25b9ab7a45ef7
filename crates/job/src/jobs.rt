// A job that goes on line by line.
ghost use Rattle.std.specs.Prelude.{◌≡◌, ◌++◌, [], ◌∷◌, length, Decides, MatchResult};
ghost use Rattle.words.specs.Words.{texts};
ghost use Rattle.job.specs.declared.command.Command.TheVariants.{Card, Points, Stress, Reach};
ghost use Rattle.job.specs.Jobs.{Performed, Remark, Prints};

use crate::command::{CardLine, Command, Name, PointsLine};
use crate::fault::Unread;
use crate::material::Material;
use crate::printed::{Answer, Printed};
use crate::read::read;
use kits::kit::Kit;
use kits::reach::reach;
use refusal::Refusal;
use std::alloc::{AllocError, Global};
use std::marker::Model;
use words::words;

// The materials of a job are one kit, numbered from 0 in the order in which they were accepted.
#[derive(Drop)]
pub struct Job {
    materials: Vec<Material>,
}

impl Model for Job {
    ghost use Rattle.std.specs.Prelude.{List};
    ghost use Rattle.job.specs.declared.material.Material.{Material};

    ghost Value = { List Material };

    ghost view = { λ job. job.materials.items };
}

// A line with no word, or whose first word begins with `#`, is skipped.
fn is_remark(words: &[&[u8]]) -> bool
    ensures { Decides result (Remark (texts words.now)) }
{
    words.first().is_none_or(|word| word.starts_with(b"#"))
}

impl Job {
    // A job with no material yet.
    pub fn new(heap: Global) -> Job
        ensures { result ≡ [] }
    {
        Job {
            materials: Vec::new(heap),
        }
    }

    // The number of the material that is added.
    fn add(&mut self, material: Material) -> Result<usize, AllocError>
        ensures { MatchResult result (λ n. (n ≡ length self.old) × (self.new ≡ self.old ++ material ∷ [])) (λ _. self.new ≡ self.old) }
    {
        let number = self.materials.len();
        self.materials.push(material)?;
        Ok(number)
    }

    // Here and in the next three, what comes out is answered or refused: a match, since two of them keep a material in between, which may fail, and the others read like them.
    fn add_card(&mut self, line: CardLine) -> Result<Printed, AllocError>
        ensures { MatchResult result (λ p. Performed self.old (Card line) p self.new) (λ _. self.new ≡ self.old) }
    {
        let name = Name::from(&line.card);
        match line.law() {
            Ok(law) => {
                let number = self.add(Material::Card(law))?;
                Ok(Printed::Answered(Answer::Card { name, number, law }))
            }
            Err(refusal) => Ok(Printed::Refused(refusal)),
        }
    }

    fn add_points(&mut self, line: PointsLine) -> Result<Printed, AllocError>
        ensures { MatchResult result (λ p. Performed self.old (Points line) p self.new) (λ _. self.new ≡ self.old) }
    {
        match line.law() {
            Ok(law) => {
                let number = self.add(Material::Points(law))?;
                Ok(Printed::Answered(Answer::Points { number }))
            }
            Err(refusal) => Ok(Printed::Refused(refusal)),
        }
    }

    fn stress(&self, number: i64, strain: i32) -> Printed
        ensures { Performed self.now (Stress number strain) result self.now }
    {
        let stress = usize::try_from(number)
            .ok()
            .and_then(|place| self.materials.stress(place, strain));
        match stress {
            Some(stress) => Printed::Answered(Answer::Stress { stress }),
            None => Printed::Refused(Refusal::NoLaw),
        }
    }

    fn reach(&self, number: i64, stress: i32) -> Printed
        ensures { Performed self.now (Reach number stress) result self.now }
    {
        match reach(&self.materials, number, stress) {
            Ok(strain) => Printed::Answered(Answer::Reach { strain }),
            Err(refusal) => Printed::Refused(refusal),
        }
    }

    // Does what the command says, and answers the line to print; want of memory changes nothing.
    pub fn perform(&mut self, command: Command) -> Result<Printed, AllocError>
        ensures { MatchResult result (λ p. Performed self.old command p self.new) (λ _. self.new ≡ self.old) }
    {
        match command {
            Command::Card(line) => self.add_card(line),
            Command::Points(line) => self.add_points(line),
            Command::Stress { number, strain } => Ok(self.stress(number, strain)),
            Command::Reach { number, stress } => Ok(self.reach(number, stress)),
        }
    }

    // What a line of the job prints, if it prints anything; the line has no line end, and its number counts from 1.
    pub fn line(
        &mut self,
        heap: Global,
        number: u64,
        line: &[u8],
    ) -> Result<Option<Printed>, AllocError>
        ensures { MatchResult result (λ p. Prints self.old number line.now p self.new) (λ _. self.new ≡ self.old) }
    {
        let words = words(heap, line)?;
        if is_remark(&words) {
            return Ok(None);
        }
        match read(heap, &words) {
            Ok(command) => Ok(Some(self.perform(command)?)),
            Err(Unread::Fault(fault)) => Ok(Some(Printed::Unreadable {
                line: number,
                fault,
            })),
            Err(Unread::Memory(error)) => Err(error),
        }
    }
}
