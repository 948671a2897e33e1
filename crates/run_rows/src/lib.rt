//! Runs of scripts under guards, and the commands of the generator: tests alone.
#![tactic(auto)]

#[cfg(test)]
mod blank_file;
#[cfg(test)]
mod guarded_runs;
#[cfg(test)]
mod lenient;
#[cfg(test)]
mod runs;
