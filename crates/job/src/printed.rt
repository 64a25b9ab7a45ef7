// What a line of a job prints.
ghost use Rattle.std.specs.Prelude.{Some};
ghost use Rattle.job.specs.Printed.{answer_line, line as line_of};

use crate::command::Name;
use crate::fault::Fault;
use cards::two_line::TwoLine;
use refusal::Refusal;
use std::fmt;

#[derive(Clone, Copy)]
pub enum Answer {
    Card {
        name: Name,
        number: usize,
        law: TwoLine,
    },
    Points {
        number: usize,
    },
    Stress {
        stress: i32,
    },
    Reach {
        strain: i32,
    },
}

// The command's word and its answer's numbers.
impl fmt::Display for Answer {
    ghost output = { λ x. Some (answer_line x) };

    fn fmt<W: fmt::Write>(&self, f: &mut fmt::Formatter<W>) -> fmt::Result {
        match self {
            Answer::Card { name, number, law } => write!(f, "{name} {number} {law}"),
            Answer::Points { number } => write!(f, "points {number}"),
            Answer::Stress { stress } => write!(f, "stress {stress}"),
            Answer::Reach { strain } => write!(f, "reach {strain}"),
        }
    }
}

#[derive(Clone, Copy)]
pub enum Printed {
    Answered(Answer),
    Refused(Refusal),
    Unreadable { line: u64, fault: Fault },
}

// An answer's line, a refusal's line, or `E`, the line's number and a few words.
impl fmt::Display for Printed {
    ghost output = { λ x. Some (line_of x) };

    fn fmt<W: fmt::Write>(&self, f: &mut fmt::Formatter<W>) -> fmt::Result {
        match self {
            Printed::Answered(answer) => write!(f, "{answer}"),
            Printed::Refused(refusal) => write!(f, "{refusal}"),
            Printed::Unreadable { line, fault } => write!(f, "E {line} {fault}"),
        }
    }
}
