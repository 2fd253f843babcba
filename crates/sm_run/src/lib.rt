//! All that the program does, over any shelf and sinks: `solve` puts the proof log of a search, which ends in the verdict,
//! and `check` tells whether a log proves its verdict.
#![tactic(auto)]

mod checking;
mod ending;
mod loading;
mod running;
mod solving;
mod telling;

pub use running::run;
