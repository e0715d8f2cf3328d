//! Tests of switching orders: many random ones, against a plain program of the two tables of refusals and effects, and the graph that they
//! patch against the one made from nothing.
#![tactic(auto)]

#[cfg(test)]
mod graphs;
#[cfg(test)]
mod live;
#[cfg(test)]
mod network;
#[cfg(test)]
mod plain_judge;
#[cfg(test)]
mod plain_trace;
#[cfg(test)]
mod random_acts;
