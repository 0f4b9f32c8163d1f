// What a training file consists of, after document 01: its layout, the parameters, items and records, and the refusals. Whoever reads or
// writes such a file stands on this. It may use `integers` alone.
#![tactic(auto)]

pub mod bytes;
pub mod item;
pub mod layout;
pub mod parameters;
pub mod record;
pub mod refusal;
