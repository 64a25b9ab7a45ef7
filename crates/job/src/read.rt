// From the words of a line to its command.
ghost use Rattle.std.specs.Prelude.{◌≡◌, [], ◌∷◌, take, drop, IfErr, MatchResult};
ghost use Rattle.words.specs.Words.{texts};
ghost use Rattle.job.specs.declared.command.Command.TheVariants.{Points};
ghost use Rattle.job.specs.Numbers.{Pairwise, Real, Whole};
ghost use Rattle.job.specs.Commands.{real_count, name as name_of_command, Numbers, Spells};
ghost use Rattle.job.specs.Faults.{Fixed, Narrow, Misses, Faulty, UnreadBy, WantedIn, ForPoints};

use crate::command::{CardLine, Command, Name, PointsLine};
use crate::fault::{Fault, Unread};
use crate::numbers::{numbers, whole_numbers};
use crate::word::parsed;
use cards::written::WrittenCard;
use laws::point::Point;
use std::alloc::Global;

// The numbers that follow the word of a command: those of f64's parse first, then the whole ones.
// A name and the words after it are passed on from one to the next here; as a struct they would be taken apart at once.
fn arguments<const R: usize, const W: usize>(
    name: Name,
    words: &[&[u8]],
) -> Result<([f64; R], [i64; W]), Fault>
    requires { Fixed name R W }
    ensures { MatchResult result (λ p. Pairwise Real (take (real_count name) (texts words.now)) p.0 × Pairwise Whole (drop (real_count name) (texts words.now)) p.1) (λ f. Misses name (texts words.now) f) }
{
    if words.len() != R + W {
        return Err(Fault::Form { name });
    }
    let (front, back) = words.split_at(R);
    let reals = numbers(front).map_err(|place| Fault::NotReal { place })?;
    // A `match`, since a closure that adds to the place would need a contract of its own.
    match numbers(back) {
        Ok(wholes) => Ok((reals, wholes)),
        Err(place) => Err(Fault::NotWhole { place: R + place }),
    }
}

// A number of 64 bits and one of 32, which the two commands that look into a material take.
fn number_and_narrow(name: Name, words: &[&[u8]]) -> Result<(i64, i32), Fault>
    requires { Fixed name 0 2 × Narrow name }
    ensures { MatchResult result (λ p. Pairwise Whole (texts words.now) (p.0 ∷ p.1 ∷ [])) (λ f. Misses name (texts words.now) f) }
{
    let (_, [number, wide]) = arguments::<0, 2>(name, words)?;
    let narrow = i32::try_from(wide).map_err(|_| Fault::NotNarrow { place: 1 })?;
    Ok((number, narrow))
}

// Two limits, and then the strain and the stress of each point.
fn points_line(heap: Global, words: &[&[u8]]) -> Result<PointsLine, Unread>
    ensures { MatchResult result (λ line. Numbers (texts words.now) (Points line)) (λ e. UnreadBy (Misses Name.Points (texts words.now)) e) }
{
    if words.len() < 2 || words.len() % 2 != 0 {
        return Err(Fault::Form { name: Name::Points }.into());
    }
    let numbers = whole_numbers(heap, words)?;
    let (limits, rest) = numbers.split_at(2);
    let (pairs, _) = rest.as_chunks::<2>();
    let points = pairs
        .iter()
        .map(|&[strain, stress]| Point { strain, stress })
        .collect(heap)?;
    Ok(PointsLine {
        points,
        compression: limits[0],
        tension: limits[1],
    })
}

// The command of that name, with the numbers that follow its word.
// Each kind of card has an arm of its own: a closure's bound may name no const parameter, and a trait over the three kinds would be longer than the arms.
fn command(heap: Global, name: Name, words: &[&[u8]]) -> Result<Command, Unread>
    ensures cases { MatchResult result (λ c. (name_of_command c ≡ name) × Numbers (texts words.now) c) (λ e. UnreadBy (Misses name (texts words.now)) e) }
    ensures memory { IfErr result (WantedIn (name ≡ Name.Points)) }
{
    match name {
        Name::Uhpc => {
            let (figures, [alpha, gamma]) = arguments::<5, 2>(name, words)?;
            let card = WrittenCard::Uhpc(figures.into());
            Ok(Command::Card(CardLine { card, alpha, gamma }))
        }
        Name::Deck => {
            let (figures, [alpha, gamma]) = arguments::<3, 2>(name, words)?;
            let card = WrittenCard::Deck(figures.into());
            Ok(Command::Card(CardLine { card, alpha, gamma }))
        }
        Name::Steel => {
            let (figures, [alpha, gamma]) = arguments::<3, 2>(name, words)?;
            let card = WrittenCard::Steel(figures.into());
            Ok(Command::Card(CardLine { card, alpha, gamma }))
        }
        Name::Points => Ok(Command::Points(points_line(heap, words)?)),
        Name::Stress => {
            let (number, strain) = number_and_narrow(name, words)?;
            Ok(Command::Stress { number, strain })
        }
        Name::Reach => {
            let (number, stress) = number_and_narrow(name, words)?;
            Ok(Command::Reach { number, stress })
        }
    }
}

// The command that the words of a line are, or why they are none.
pub fn read(heap: Global, words: &[&[u8]]) -> Result<Command, Unread>
    ensures cases { MatchResult result (λ c. Spells (texts words.now) c) (λ e. UnreadBy (Faulty (texts words.now)) e) }
    ensures memory { IfErr result (WantedIn (ForPoints (texts words.now))) }
{
    let (word, rest) = words.split_first().ok_or(Fault::Unknown)?;
    let name = parsed(word).ok_or(Fault::Unknown)?;
    command(heap, name, rest)
}
