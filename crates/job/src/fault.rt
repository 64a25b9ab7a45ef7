// Why a line is no command.
ghost use Rattle.std.specs.Prelude.{◌≡◌, Some, alloc_error};
ghost use Rattle.job.specs.Faults.{place as place_of, text as text_of, words as words_of};

use crate::command::Name;
use std::alloc::{AllocError, AllocFailed};
use std::fmt;

// A place counts the numbers after the command's word, from 0.
#[derive(Clone, Copy, PartialEq, Eq, Debug)]
pub enum Fault {
    Unknown,
    Form { name: Name },
    NotReal { place: usize },
    NotWhole { place: usize },
    NotNarrow { place: usize },
}

impl Fault {
    fn place(&self) -> Option<usize>
        ensures { result ≡ place_of self.now }
    {
        match *self {
            Fault::Unknown | Fault::Form { .. } => None,
            Fault::NotReal { place } | Fault::NotWhole { place } | Fault::NotNarrow { place } => {
                Some(place)
            }
        }
    }

    fn text(&self) -> &'static str
        ensures { result.now ≡ text_of self.now }
    {
        match self {
            Fault::Unknown => "no such command",
            Fault::Form { name } => name.form(),
            Fault::NotReal { .. } => "is not a number",
            Fault::NotWhole { .. } => "is not a whole number of 64 bits",
            Fault::NotNarrow { .. } => "is not a whole number of 32 bits",
        }
    }
}

impl fmt::Display for Fault {
    ghost output = { λ x. Some (words_of x) };

    fn fmt<W: fmt::Write>(&self, f: &mut fmt::Formatter<W>) -> fmt::Result {
        let text = self.text();
        match self.place() {
            None => write!(f, "{text}"),
            Some(place) => write!(f, "place {place} {text}"),
        }
    }
}

// Why words were not read: they are no command, or memory ran out.
#[derive(Clone, Copy, PartialEq, Eq, Debug)]
pub enum Unread {
    Fault(Fault),
    Memory(AllocError),
}

impl From<Fault> for Unread {
    ghost use Rattle.job.specs.declared.fault.Unread.TheVariants.{Fault as AtFault};

    ghost from_gives = { λ fault unread. unread ≡ AtFault fault };

    fn from(fault: Fault) -> Unread {
        Unread::Fault(fault)
    }
}

impl From<AllocError> for Unread {
    ghost use Rattle.job.specs.declared.fault.Unread.TheVariants.{Memory};

    ghost from_gives = { λ error unread. unread ≡ Memory error };

    fn from(error: AllocError) -> Unread {
        Unread::Memory(error)
    }
}

impl<T: Drop> From<AllocFailed<T>> for Unread {
    ghost use Rattle.job.specs.declared.fault.Unread.TheVariants.{Memory};

    ghost from_gives = { λ _ unread. unread ≡ Memory alloc_error };

    fn from(failed: AllocFailed<T>) -> Unread {
        Unread::Memory(failed.into())
    }
}
