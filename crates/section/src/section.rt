// A section: what it is, a row of fibres, and the load that it is asked under.
use crate::load::Load;
use crate::row::Row;

pub mod calls;
#[cfg(test)]
mod tests;

#[derive(Drop)]
pub struct Section<K> {
    row: Row<K>,
    load: Load,
}
