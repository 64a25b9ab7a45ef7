// What an ask answers.

// The two ends of the top strains that balance the load, in nano, and the moment at each, in thousandths of a pound times sixteenths of an inch.
#[derive(Clone, Copy, PartialEq, Eq, Debug)]
pub struct Ends {
    pub first: i32,
    pub last: i32,
    pub first_moment: i64,
    pub last_moment: i64,
}
