// The lines of a text of cases: what each gives, and how an answer is written. Nothing here is about checking.
#![tactic(auto)]

pub mod cases;
pub mod show;
