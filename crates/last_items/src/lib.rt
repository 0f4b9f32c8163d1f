// The last of items with the same features, after document 02, request (h): which items of a file stay where others follow. It may use
// `integers` and `training_file`.
#![tactic(auto)]

mod hash;
mod hashed;
pub mod kept;
pub mod records;
