//! Tests which call `run` over devices in memory, and the devices themselves: those in memory, and the adapters to real
//! files and to the standard output. They are kept in one crate since each test is proved too, so that the crates below
//! are proved without them. It has no public items.
#![tactic(auto)]

#[cfg(test)]
mod caches;
#[cfg(test)]
mod case;
#[cfg(test)]
mod devices;
#[cfg(test)]
mod gates;
#[cfg(test)]
mod run;
#[cfg(test)]
mod words;
