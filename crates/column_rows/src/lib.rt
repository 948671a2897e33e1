//! Texts and documents by columns beside plain ones: tests alone.
#![tactic(auto)]

#[cfg(test)]
mod as_json;
#[cfg(test)]
mod cuts;
#[cfg(test)]
mod documents;
#[cfg(test)]
mod joins;
#[cfg(test)]
mod lent;
#[cfg(test)]
mod outlines;
#[cfg(test)]
mod runs;
#[cfg(test)]
mod scripted;
