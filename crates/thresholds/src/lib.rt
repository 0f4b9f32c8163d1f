// The up set, the low set and both thresholds (document 01, "The step"), found from a list that holds G or from judged multipliers alone.
// It may use `integers`, `training_file`, `reading` and `dual_problem`.
#![tactic(auto)]

pub mod extremes;
