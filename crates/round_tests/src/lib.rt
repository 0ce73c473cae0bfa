//! Tests of jobs on threads, of what is pending in a completion, of a claim that is decided alone, and of matrices, categories, shelves and
//! sinks.
#![tactic(auto)]

#[cfg(test)]
mod categories;
#[cfg(test)]
mod comparing;
#[cfg(test)]
mod flows;
#[cfg(test)]
mod matrices;
#[cfg(test)]
mod rounds;
#[cfg(test)]
mod solving;
#[cfg(test)]
mod threads;
#[cfg(test)]
mod values;
