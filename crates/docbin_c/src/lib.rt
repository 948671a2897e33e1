//! `docbin` for programs in C: calls that take bytes and give bytes.
#![tactic(auto)]

mod answer;
mod exports;
mod fit;
mod given;
mod growing;
mod rooms;
mod serve;
mod view;
mod words;

pub use answer::DocbinAnswer;
