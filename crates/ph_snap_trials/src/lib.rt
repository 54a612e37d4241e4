//! Trees that are saved and loaded, and bytes that are altered, beside a reading of their own.
#![tactic(auto)]

#[cfg(test)]
mod tests;
