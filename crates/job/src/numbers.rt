// The numbers of a command, from its words.
ghost use Rattle.std.specs.Prelude.{◌≡◌, ℕ, List, length, IfOk, MatchOption, MatchResult};
ghost use Rattle.std.specs.List.{AllByRecursion};
ghost use Rattle.refusal.specs.First.{FirstOut};
ghost use Rattle.words.specs.Words.{texts};
ghost use Rattle.job.specs.declared.fault.Fault.TheVariants.{NotWhole};
ghost use Rattle.job.specs.Faults.{UnreadBy};
ghost use Rattle.job.specs.Numbers.{Pairwise, IsReal, IsWhole, Real, Whole};

use crate::fault::{Fault, Unread};
use crate::word::parsed;
use std::alloc::Global;

// A sort of number: which words are one, and which number each is.
pub trait Number: Copy {
    const ZERO: Self;

    ghost form: { List ℕ → Type 0 };

    ghost value: { List ℕ → Self → Type 0 };

    fn read(word: &[u8]) -> Option<Self>
        ensures { MatchOption result (form word.now → ⊥) (λ x. form word.now × value word.now x) };
}

// What f64's parse makes of a word. Both sorts are read by `parsed`, and each shows its own form and value of it.
impl Number for f64 {
    const ZERO: f64 = 0.0;

    ghost form = { IsReal };

    ghost value = { Real };

    fn read(word: &[u8]) -> Option<f64> {
        parsed(word)
    }
}

// A whole number of 64 bits, with a sign or with none.
impl Number for i64 {
    const ZERO: i64 = 0;

    ghost form = { IsWhole };

    ghost value = { Whole };

    fn read(word: &[u8]) -> Option<i64> {
        parsed(word)
    }
}

// The words as numbers, or the place of the first that is none: a place, as only the caller knows which fault it is.
pub(crate) fn numbers<T: Number, const N: usize>(words: &[&[u8]]) -> Result<[T; N], usize>
    requires { length words.now ≡ N }
    ensures { MatchResult result (λ xs. AllByRecursion T.Number.form (texts words.now) × Pairwise T.Number.value (texts words.now) xs) (λ p. FirstOut T.Number.form (texts words.now) p) }
{
    let mut numbers = [T::ZERO; N];
    for (place, word) in words.iter().enumerate() {
        // By its place: a zip with the array that is written would say no more.
        numbers[place] = T::read(word).ok_or(place)?;
    }
    Ok(numbers)
}

// The same as a list of whole numbers, since how many words there are is known only when the line is read.
pub(crate) fn whole_numbers(heap: Global, words: &[&[u8]]) -> Result<Vec<i64>, Unread>
    ensures read { MatchResult result (λ v. AllByRecursion IsWhole (texts words.now) × Pairwise Whole (texts words.now) v.items) (λ e. UnreadBy (λ f. (p : ℕ) × (f ≡ NotWhole p) × FirstOut IsWhole (texts words.now) p) e) }
    ensures many { IfOk result (λ v. length v.items ≡ length words.now) }
{
    let mut numbers = Vec::new(heap);
    for (place, word) in words.iter().enumerate() {
        let number = i64::read(word).ok_or(Fault::NotWhole { place })?;
        numbers.push(number)?;
    }
    Ok(numbers)
}
