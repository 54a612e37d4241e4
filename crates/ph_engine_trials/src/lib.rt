//! Scripts and what is answered to them, over a source and a sink in memory, run against the engine's contracts.
#![tactic(auto)]

#[cfg(test)]
mod tests;
