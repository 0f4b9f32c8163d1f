// A step taken (document 01, "The step"): both multipliers moved, and G of each item brought up to them. It may use `integers`,
// `training_file`, `reading`, `dual_problem` and `working_pair`.
#![tactic(auto)]

pub mod step;
