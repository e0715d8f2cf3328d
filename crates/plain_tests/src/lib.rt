//! Tests of the program's commands: runs over content and an output in memory, with how they end and what they write.
#![tactic(auto)]

#[cfg(test)]
mod answers;
#[cfg(test)]
mod bases;
#[cfg(test)]
mod classes;
#[cfg(test)]
mod ieee_13_node;
#[cfg(test)]
mod networks;
#[cfg(test)]
mod plain;
#[cfg(test)]
mod runs;
#[cfg(test)]
mod scripts;
