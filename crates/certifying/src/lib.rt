// Certifying (document 01): the multipliers judged, and the call. It may use `integers`, `training_file`, `reading`, `dual_problem` and
// `thresholds`.
#![tactic(auto)]

pub mod certify;
pub mod multipliers;
