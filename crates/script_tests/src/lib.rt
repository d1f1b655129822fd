//! Tests of scripts on texts written by hand from the format. They stand apart so that their reader is proved without
//! them.
#![tactic(auto)]

// which texts are scripts, and where others are bad
#[cfg(test)]
mod grammar_tests;
// what lines say
#[cfg(test)]
mod value_tests;
