// The chain of a training file (document 01, "The training file", refusals 3, 4 and 16): walked to its end, its records judged, its
// order written down. It may use `integers` and `training_file`.
#![tactic(auto)]

mod link;
mod walker;
pub mod walks;
