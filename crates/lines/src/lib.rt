// The lines of the listing that the training program prints, put into a lent buffer. It may use `integers`, `buffer` and `text`, and for
// what it prints `training_file`, `reading`, `dual_problem`, `smo` and `totals`.
#![tactic(auto)]

pub mod print;
