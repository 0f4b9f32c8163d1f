// The library's calls for C and Rust. Each takes any bytes and any lists, and answers the refusal by value, number and record; number 0
// says that there is none. What a call finds is written through what the caller lends, and on a refusal nothing lent is written. It may
// use `lookahead`, the libraries that declare its types, and `integers`.
#![tactic(auto)]

pub mod certify;
pub mod classify;
pub mod import;
mod numbering;
pub mod parameters;
pub mod pool;
pub mod read;
pub mod refusal;
pub mod train;
pub mod write;
mod written;
