//! Tests of whole runs: rows of words and files with the status and the report, devices that fail, gates that see threads, and files
//! at each limit. Further rows, which need no failing device, stand in python/tests; test_rows.py asks them of the program.
#![tactic(auto)]

#[cfg(test)]
mod answers;
#[cfg(test)]
mod call_tests;
#[cfg(test)]
mod check_rows;
#[cfg(test)]
mod comparing;
#[cfg(test)]
mod decided_rows;
#[cfg(test)]
mod evidence_rows;
#[cfg(test)]
mod gate_tests;
#[cfg(test)]
mod limit_rows;
#[cfg(test)]
mod limit_tests;
#[cfg(test)]
mod model_rows;
#[cfg(test)]
mod parts;
#[cfg(test)]
mod steady_tests;
#[cfg(test)]
mod telling;
#[cfg(test)]
mod tests;
