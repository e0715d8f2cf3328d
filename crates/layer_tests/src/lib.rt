//! Tests of the layers between words and networks, and of the outside: what no contract can say, by values that come from outside.
#![tactic(auto)]

#[cfg(test)]
mod boards;
#[cfg(test)]
mod doors;
#[cfg(test)]
mod links;
#[cfg(test)]
mod lists;
#[cfg(test)]
mod overlays;
#[cfg(test)]
mod sections;
#[cfg(test)]
mod sets;
#[cfg(test)]
mod shared_pages;
#[cfg(test)]
mod shelves;
#[cfg(test)]
mod talks;
