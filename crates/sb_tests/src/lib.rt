//! Tests of what no script of `sb_scripts` and no client of the built program shows: both logs by one list of tests, a
//! list of a cell's events, hosts, the workers that call their sessions, connections over memory, faults, and calls that
//! take no memory, between two marks each. They stand in a crate of their own, since a crate with tests is proved once
//! more with them.
#![tactic(auto)]

#[cfg(test)]
mod cells;
#[cfg(test)]
mod changes;
#[cfg(test)]
mod connections;
#[cfg(test)]
mod events;
#[cfg(test)]
mod faults;
#[cfg(test)]
mod host_renewals;
#[cfg(test)]
mod hosts;
#[cfg(test)]
mod jobs;
#[cfg(test)]
mod logs;
#[cfg(test)]
mod mark;
#[cfg(test)]
mod net;
#[cfg(test)]
mod pressed;
#[cfg(test)]
mod priority;
#[cfg(test)]
mod renewals;
#[cfg(test)]
mod rules;
#[cfg(test)]
mod schema;
#[cfg(test)]
mod tables;
