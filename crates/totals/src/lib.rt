// What the line of an item shows, and the totals of such lines. It may use `integers`, `training_file` and `dual_problem`.
#![tactic(auto)]

pub mod sums;
