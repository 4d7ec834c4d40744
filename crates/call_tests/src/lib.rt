//! Each public call of the lower crates that takes memory, once with enough of it. They stand apart, since a
//! crate with tests is proved once more with them.
#![tactic(auto)]

#[cfg(test)]
mod base_tests;
#[cfg(test)]
mod data_tests;
#[cfg(test)]
mod handle_tests;
#[cfg(test)]
mod header_tests;
#[cfg(test)]
mod packing_tests;
#[cfg(test)]
mod pipe_tests;
#[cfg(test)]
mod queue_tests;
#[cfg(test)]
mod response_tests;
#[cfg(test)]
mod router_tests;
#[cfg(test)]
mod version_tests;
