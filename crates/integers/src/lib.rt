#![tactic(auto)]

// The integers, sums, least and greatest, and Gram forms as the definitions and proofs of the trainer use them. Mathematics only: this crate
// has no function. It uses no other crate.
