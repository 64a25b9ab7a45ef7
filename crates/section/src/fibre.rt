// A layer of a section.

// Plain data, since the definitions make one from its figures, and each would have to carry proofs.
// Its depth below the top in sixteenths of an inch, its area in thousandths of a square inch, the number of its material and its initial strain in nano.
#[derive(Clone, Copy, PartialEq, Eq, Debug)]
pub struct Fibre {
    pub depth: u32,
    pub area: u32,
    pub material: u8,
    pub initial: i32,
}
