//! Laws of lists, truth values, options, numbers and order, with no word of networks in them, for the proofs of the crates above.
#![tactic(auto)]
