// Moving up a year, after document 02, request (h): the pool of two training files. The public call is `pool` of `pool`. It may use
// `integers`, `buffer`, `training_file`, `reading`, `written_file` and `last_items`, and `chain` and `writing` for its laws alone.
#![tactic(auto)]

mod left;
pub mod pool;
