// The dual problem of document 01, "Grid definitions": kernel values and G. That the bound on the distance holds is among its laws. It may
// use `integers`, `training_file` and `reading`.
#![tactic(auto)]

pub mod gradient;
pub mod kernel;
pub mod label;
pub mod problem;
