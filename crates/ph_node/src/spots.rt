//! Where an entry stands in its node.

/// An entry as its node knows it: its place in the order of the addresses, and its hypercube address.
#[derive(Clone, Copy)]
pub struct Spot {
    pub place: usize,
    pub addr: u32,
}
