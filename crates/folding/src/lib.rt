// Lines that are folded, and answers that are taken apart: what a list that is shown to people is made of.
#![tactic(auto)]

pub mod fold;
pub mod split;
