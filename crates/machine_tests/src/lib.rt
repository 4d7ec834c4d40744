//! What no script leads to: a core that is stepped through the one interface for all that step it, calls with jobs over it, what desks
//! ask of versions, flushes, pauses and data pipes, a hub's pass that takes what it wrote, four threads over one hub, the longest payload
//! and one that is too long, and the versions of interfaces. They stand apart, since a crate with tests is proved once more with them.
#![tactic(auto)]

#[cfg(test)]
mod compiled;
#[cfg(test)]
mod data_tests;
#[cfg(test)]
mod desk_tests;
#[cfg(test)]
mod longest_tests;
#[cfg(test)]
mod notice_tests;
#[cfg(test)]
mod own_write;
#[cfg(test)]
mod stepper_tests;
#[cfg(test)]
mod thread_tests;
#[cfg(test)]
mod version_tests;
