// Reading a training file, after document 01: any bytes are read as one of the refusals 1 to 5 and 16, or as parameters and the items in
// chain order. The public calls are `read` and `order` of `reader`. It may use `integers`, `training_file` and `chain`.
#![tactic(auto)]

mod header;
pub mod reader;
