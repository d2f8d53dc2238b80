//! What only a call can show: that calls succeed with ample memory, and what the outside does. All
//! else is in contracts or is a case of the program.
#![tactic(auto)]

#[cfg(test)]
mod certificates;
#[cfg(test)]
mod edge;
#[cfg(test)]
mod lists;
#[cfg(test)]
mod pool;
#[cfg(test)]
mod symbols;
#[cfg(test)]
mod terms;
