// What callers use: a training file is read and trained, multipliers of it are certified, words are classified by them, and a file is
// written of items in memory, of a text or of two files. Any bytes and any lists are taken; what is wrong with them is answered by a refusal
// of documents 01 and 02. It may use every library below it.
#![tactic(auto)]

pub mod certify;
pub mod classify;
pub mod import;
pub mod pool;
pub mod read;
pub mod train;
pub mod write;

// The types of the answers and of what they hold, and the label by which `dual_problem::label::ceiling` tells a ceiling, by the name of this
// library.
pub use classifying::classify::Class;
pub use smo::ending::Ending;
pub use smo::run::Trained;
pub use thresholds::extremes::Thresholds;
pub use training_file::item::Label;
pub use training_file::parameters::{Kernel, Parameters};
pub use training_file::refusal::Refusal;
pub use writing::row::Row;
