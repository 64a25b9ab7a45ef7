// What one word says.
ghost use Rattle.std.specs.Prelude.{MatchOption, IsUtf8, Ok, Err};

use std::str::FromStr;

// What the word is as a `T`, if it is text that `parse` takes.
pub(crate) fn parsed<T: FromStr>(word: &[u8]) -> Option<T>
where
    T::Err: Drop,
    ensures { MatchOption result (IsUtf8 word.now → (e : T.Err) × T.from_str_gives word.now (Err e)) (λ x. IsUtf8 word.now × T.from_str_gives word.now (Ok x)) }
{
    std::str::from_utf8(word).ok()?.parse().ok()
}
