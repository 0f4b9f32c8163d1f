// Texts of libsvm's line form, read line by line, after document 02, request (c). It may use `integers`, `training_file` and, for its
// definitions alone, `text`.
#![tactic(auto)]

pub mod group;
pub mod line;
mod numeral;
pub mod place;
