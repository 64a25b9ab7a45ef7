// A quantity over whole points that never falls, and the search for a point by its value.
#![tactic(auto)]

ghost use Rattle.std.specs.Prelude.{◌≡◌, ℤ, pos, ◌+ℤ◌, ◌-ℤ◌, ◌≤ℤ◌, ◌<ℤ◌, int_div};
ghost use Rattle.search.specs.Points.{Least, LeastOrNone, GreatestOrNone, Only};

// A quantity over whole points that never falls as the point rises.
pub trait NeverFalls {
    // The points at which it may be asked.
    ghost covers: { Self → ℤ → Type 0 };

    ghost value: { Self → ℤ → ℤ };

    ghost rises: { (q : Self) (x y : ℤ) → covers q x → covers q y → x ≤ℤ y → value q x ≤ℤ value q y };

    fn at(&self, point: i32) -> i64
        requires { covers self.now point }
        ensures { result ≡ value self.now point };
}

// The midpoint of the two, which is not the upper one, with no sum that wraps.
fn halfway(low: i32, high: i32) -> i32
    requires { low <ℤ high }
    ensures value { result ≡ low +ℤ int_div (high -ℤ low) (pos 2) }
    ensures from { low ≤ℤ result }
    ensures below { result <ℤ high }
{
    let (low, high) = (low as i64, high as i64);
    (low + (high - low) / 2) as i32
}

// The least point from low to high at which the value is not below the target, where it is not below it at high.
// Each turn halves what is left, so it asks for at most 32 values. The points are numbers and stand in no slice, so no search of the library's fits.
// `covered` stands here and in the two below, with the same four parameters: as a ghost field of a struct it would have to be a proposition, and a law of NeverFalls that what is covered is one would ask more of who implements it.
fn bisect<Q: NeverFalls>(quantity: &Q, low: i32, high: i32, target: i64) -> i32
    requires ordered { low ≤ℤ high }
    requires covered { (x : ℤ) → low ≤ℤ x → x ≤ℤ high → Q.covers quantity.now x }
    requires reached { target ≤ℤ Q.value quantity.now high }
    ensures { Least (λ x. target ≤ℤ Q.value quantity.now x) low high result }
{
    let mut bottom = low;
    let mut top = high;
    while bottom < top {
        let middle = halfway(bottom, top);
        if quantity.at(middle) < target {
            bottom = middle + 1;
        } else {
            top = middle;
        }
    }
    bottom
}

// The least point from low to high at which the value is not below the target, or that there is none.
// Every caller in our own crates proves `covered`.
pub fn least<Q: NeverFalls>(quantity: &Q, low: i32, high: i32, target: i64) -> Option<i32>
    requires covered { (x : ℤ) → low ≤ℤ x → x ≤ℤ high → Q.covers quantity.now x }
    ensures found { LeastOrNone (λ x. target ≤ℤ Q.value quantity.now x) low high result }
    ensures only { Only (LeastOrNone (λ x. target ≤ℤ Q.value quantity.now x) low high) result }
{
    if low > high || quantity.at(high) < target {
        return None;
    }
    Some(bisect(quantity, low, high, target))
}

// The greatest point from low to high at which the value is not above the target, or that there is none.
// Every caller in our own crates proves `covered`.
pub fn greatest<Q: NeverFalls>(quantity: &Q, low: i32, high: i32, target: i64) -> Option<i32>
    requires covered { (x : ℤ) → low ≤ℤ x → x ≤ℤ high → Q.covers quantity.now x }
    ensures found { GreatestOrNone (λ x. Q.value quantity.now x ≤ℤ target) low high result }
    ensures only { Only (GreatestOrNone (λ x. Q.value quantity.now x ≤ℤ target) low high) result }
{
    if low > high {
        return None;
    }
    if quantity.at(high) <= target {
        return Some(high);
    }
    // A value above the target exists, so one more than the target is still a number.
    let past = bisect(quantity, low, high, target + 1);
    if low < past { Some(past - 1) } else { None }
}

#[cfg(test)]
mod tests;
