// Writing a training file of items and parameters in memory, after document 02, request (b). The public call is `write` of `write`. It may use
// `integers`, `buffer`, `training_file` and `written_file`, and `chain` and `reading` for its laws alone.
#![tactic(auto)]

pub mod row;
mod rows;
pub mod write;
