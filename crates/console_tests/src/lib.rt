//! Tests of consoles in threads of their own, over versions of a network, and of the desk that they stand at.
#![tactic(auto)]

#[cfg(test)]
mod answers;
#[cfg(test)]
mod desk_calls;
#[cfg(test)]
mod feeder;
#[cfg(test)]
mod many_consoles;
#[cfg(test)]
mod one_after_another;
#[cfg(test)]
mod orders;
#[cfg(test)]
mod replay;
#[cfg(test)]
mod rooms;
#[cfg(test)]
mod working;
