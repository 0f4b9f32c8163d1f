// The training file of parameters and items, put into a lent output: what every call that writes a file is made of, after document 02,
// request (b). It may use `integers`, `buffer`, `training_file`, `chain` and `reading`, the last two for its laws alone: what is written is
// read back.
#![tactic(auto)]

pub mod header;
pub mod output;
pub mod record;
