// The tree as a model, by which the crates of the tree prove what they do: definitions and their laws, and no code.
#![tactic(auto)]
