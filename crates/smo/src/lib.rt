// Sequential minimal optimization (document 01, "The step"): the run, step after step, and how it ends. It may use `integers`,
// `training_file`, `dual_problem`, `thresholds`, `working_pair` and `smo_step`.
#![tactic(auto)]

pub mod ending;
pub mod run;
