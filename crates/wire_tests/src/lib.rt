//! Tests of requests, replies and entries as text, by tables.
#![tactic(auto)]

#[cfg(test)]
mod replies;
#[cfg(test)]
mod requests;
