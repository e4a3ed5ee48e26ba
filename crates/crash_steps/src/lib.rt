//! What a crash may leave of anything that commands change, a step at a time: definitions and lemmas, no code.
#![tactic(auto)]
