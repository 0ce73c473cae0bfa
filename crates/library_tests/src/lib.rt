//! Tests of library calls: tables of rows by theme. `shifts` is a small kind of block, which shows what a kind of block consists of.
#![tactic(auto)]

#[cfg(test)]
mod comparing;
#[cfg(test)]
mod letters;
#[cfg(test)]
mod matching;
#[cfg(test)]
mod notation;
#[cfg(test)]
mod orders;
#[cfg(test)]
mod overlapping;
#[cfg(test)]
mod rules;
#[cfg(test)]
mod shift_test_rows;
#[cfg(test)]
mod shift_tests;
pub mod shifts;
#[cfg(test)]
mod statement_rows;
#[cfg(test)]
mod statement_texts;
