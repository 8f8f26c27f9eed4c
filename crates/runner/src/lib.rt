//! A run of a link script: its calls are carried out on a sink, and what they answer is printed.

#![tactic(auto)]

pub mod answer;
pub mod output;
pub mod run;
pub mod shown;
