//! Tests of the network, its graph and its traces: what no contract can say, by values that come from outside.
#![tactic(auto)]

#[cfg(test)]
mod acts;
#[cfg(test)]
mod graphs;
#[cfg(test)]
mod model;
#[cfg(test)]
mod overlays;
#[cfg(test)]
mod profile;
#[cfg(test)]
mod records;
#[cfg(test)]
mod traces;
