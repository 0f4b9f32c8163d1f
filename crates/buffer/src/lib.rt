// Bytes put into a lent buffer, for files and texts alike. It uses no other crate.
#![tactic(auto)]

pub mod put;
