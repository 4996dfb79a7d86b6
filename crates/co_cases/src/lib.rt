//! Tests of the libraries, from streams to a whole device, through the public calls of their
//! crates. A crate with tests of its own would be proved twice.
#![tactic(auto)]

#[cfg(test)]
mod bounds;
#[cfg(test)]
mod channel;
#[cfg(test)]
mod data;
#[cfg(test)]
mod dialogues;
#[cfg(test)]
mod large;
#[cfg(test)]
mod lines;
#[cfg(test)]
mod mappings;
#[cfg(test)]
mod neighbours;
#[cfg(test)]
mod scripts;
#[cfg(test)]
mod states;
#[cfg(test)]
mod transfers;
