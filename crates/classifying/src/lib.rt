// Classifying a word by multipliers of a file (document 01, "The step" and refusal 9). It may use `integers`, `training_file`, `reading`,
// `dual_problem`, `thresholds` and `certifying`.
#![tactic(auto)]

pub mod classify;
mod word;
