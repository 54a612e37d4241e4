//! What stands beside the tree, with answers that are known from outside: numbers, points and digits, the Z-order, boxes, the plain
//! index, plain trees, and rows as records of text.
#![tactic(auto)]

#[cfg(test)]
mod tests;
