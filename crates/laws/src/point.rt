// A point of a law: the stress at one strain.
#[derive(Clone, Copy, PartialEq, Eq, Debug)]
pub struct Point {
    pub strain: i64,
    pub stress: i64,
}
