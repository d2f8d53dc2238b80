//! All that the program does: it runs the proofs of a file, and lists the goals that they prove.
#![tactic(auto)]

mod answer;
mod formula;
mod goal;
mod number;
mod put;
mod reading;
mod run;
mod runner;
mod scan;
mod script;

pub use run::squirrel_run;
