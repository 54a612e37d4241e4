//! The arrays that a caller lends to have rows written into them.

/// What is lent for a page: room for rows, and for how many were written and whether more are left.
#[derive(Drop)]
pub(crate) struct PageArrays<'a> {
    pub points: &'a mut [i64],
    pub values: &'a mut [u64],
    pub count: &'a mut usize,
    pub more: &'a mut u32,
}

/// What is lent for the nearest rows: room for rows with their distances, each in two halves, and for how many were written.
#[derive(Drop)]
pub(crate) struct HitArrays<'a> {
    pub points: &'a mut [i64],
    pub values: &'a mut [u64],
    pub distances: &'a mut [u64],
    pub count: &'a mut usize,
}
