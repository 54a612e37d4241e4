//! What the calls answer, as `bindings/c/phtree.h` names it.

pub(crate) const DONE: u32 = 0;

pub(crate) const REPLACED: u32 = 1;

pub(crate) const ABSENT: u32 = 2;

pub(crate) const TAKEN: u32 = 3;

pub(crate) const NO_TREE: u32 = 10;

pub(crate) const NO_DIMENSIONS: u32 = 11;

pub(crate) const NO_WIDTH: u32 = 12;

pub(crate) const NO_POINT: u32 = 13;

pub(crate) const REVERSED: u32 = 14;

pub(crate) const FULL: u32 = 15;

pub(crate) const NO_MEMORY: u32 = 16;

pub(crate) const NO_ROOM: u32 = 17;

pub(crate) const UNLIKE: u32 = 18;

pub(crate) const NO_BOXES: u32 = 19;

pub(crate) const DAMAGED: u32 = 20;
