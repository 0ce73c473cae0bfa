//! Proves and refutes identities of operators: the program.
#![tactic(auto)]

use command_runs::run;
use command_shape::status::OUT_OF_MEMORY;
use flow_io::{RealShelf, RealSink};
use in_order_parallel::OpenGate;
use matrix_models::Matrices;
use std::env;
use std::io::ErrorKind;
use std::process::ExitCode;

fn main(rt: HostRuntime) -> ExitCode {
    let alloc = rt.alloc();
    let mut words = Vec::new(alloc);
    match env::args(&rt) {
        Ok(all) => {
            for word in all.skip(1) {
                if words.push(word).is_err() {
                    return ExitCode::from(OUT_OF_MEMORY);
                }
            }
        }
        // words that are not text are other words
        Err(error) if error.kind() != ErrorKind::OutOfMemory => {}
        Err(_) => return ExitCode::from(OUT_OF_MEMORY),
    }
    let mut shelf = RealShelf::new(rt);
    let mut sink = RealSink::new(rt);
    let category = Matrices { modulus: 2 };
    ExitCode::from(run(
        &rt, alloc, &category, &words, &mut shelf, &mut sink, &OpenGate,
    ))
}
