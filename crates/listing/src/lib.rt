// The listing that the training program prints, as bytes in a lent buffer. It calls `lookahead` and `lines`, and may use `buffer`, `text`,
// `totals` and the libraries below `lookahead`.
#![tactic(auto)]

pub mod list;
