//! Tests of words, names and lines: what no contract can say, by values that come from outside.
#![tactic(auto)]

#[cfg(test)]
mod lines;
#[cfg(test)]
mod profile_names;
#[cfg(test)]
mod words;
