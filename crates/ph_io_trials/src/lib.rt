//! Sources, sinks and files of each kind, with answers that are known from outside.
#![tactic(auto)]

#[cfg(test)]
mod tests;
