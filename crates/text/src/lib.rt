// Decimal numbers put into a lent buffer. It may use `integers`, `buffer` and the kit's `itoa`.
#![tactic(auto)]

pub mod number;
