//! Lines of scripts, the commands that they spell and the texts of replies, with what is to come out of them known from outside.
#![tactic(auto)]

#[cfg(test)]
mod tests;
