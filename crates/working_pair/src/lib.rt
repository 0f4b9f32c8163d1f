// The rule for one step (document 01, "The step"): which pair moves, and by how much. It may use `integers`, `training_file`, `reading`,
// `dual_problem` and `thresholds`.
#![tactic(auto)]

pub mod amount;
mod curvature;
pub mod pair;
mod row;
mod standing;
