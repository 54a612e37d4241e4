//! Nodes of a PH-tree: a level, and entries in the order of their hypercube addresses. An entry is a
//! point with a value, or a child that has the points with this address.
//!
//! The number of dimensions is a type, [`Dims`], since a type that leads back to itself takes no const
//! parameter; [`Node`], [`NodeRef`], [`Entry`], [`What`] and [`Child`] are the names at a number.
//! The level and the entries of a node are read through [`NodeOf::visit`] alone. Each call that edits a node counts its
//! changes; that a node behind a `&mut` is swapped for another is not counted.
#![tactic(auto)]

mod adds;
mod assembles;
mod builds;
mod dissolves;
mod edited;
mod edits;
mod marks;
mod moves;
mod node;
mod olds;
mod pairs;
mod points;
mod reads;
mod records;
mod removals;
mod rewrites;
mod singles;
mod splits;
mod spots;

pub use node::{Child, ChildOf, Node, NodeOf};
pub use ph_coord::{Dim, Dims};
pub use reads::{Entry, EntryOf, NodeRef, NodeRefOf, What, WhatOf};
pub use spots::Spot;
pub use std::alloc::AllocError as NoMemory;
