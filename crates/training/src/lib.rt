// Training a file from zeros (document 01, "The step"): the file is read, and the run of `smo` leaves its result and both lists. It may
// use `integers`, `training_file`, `reading`, `dual_problem`, `working_pair` and `smo`.
#![tactic(auto)]

pub mod train;
