//! Workers: jobs done by several threads, each of them once, with the results in the order of the jobs.
#![tactic(auto)]

mod caller;
mod crew;
mod helper;
mod results;
mod rule;
mod turns;
mod work;

pub use crew::run;
pub use work::Work;
