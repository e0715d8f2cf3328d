//! Tests of scripts: whole days of requests with their replies and histories, as text.
#![tactic(auto)]

#[cfg(test)]
mod faults;
#[cfg(test)]
mod feeder;
#[cfg(test)]
mod limits;
#[cfg(test)]
mod pieces;
#[cfg(test)]
mod playing;
#[cfg(test)]
mod scripts;
#[cfg(test)]
mod texts;
