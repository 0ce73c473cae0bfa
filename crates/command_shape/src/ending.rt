//! Statuses and reports.
ghost use Rattle.std.specs.Prelude.{◌≡◌, IfOk};
ghost use Rattle.command_shape.specs.Ending.{usage, load_failed, too_long, refused_statement, refused_evidence};

use crate::status::{ACCEPTED, FAULTY_STATEMENT, NOT_LOADED, OTHER_WORDS, REFUSED_EVIDENCE};
use block_text::{put, put_labelled};
use std::alloc::{AllocError, Global};
use std::marker::Model;

/// How a run ends: its status, and the report that it puts.
#[derive(Drop)]
pub struct Ending {
    status: u8,
    report: Vec<u8>,
}

impl Model for Ending {
    ghost use Rattle.command_shape.specs.Ending.{Ending as End};

    ghost Value = { End };

    ghost view = { λ ending. record { status = ending.status; report = ending.report.items } };
}

impl Ending {
    /// The status of the run.
    pub fn status(&self) -> u8
        ensures { result ≡ self.now.status }
    {
        self.status
    }

    /// The bytes of the report.
    pub fn report(&self) -> &[u8]
        ensures { result.now ≡ self.now.report }
    {
        &self.report
    }

    /// The usage line, for words that are no call.
    pub fn usage(text: Vec<u8>) -> Result<Ending, AllocError>
        ensures { IfOk result (λ ending. ending ≡ usage text.items) }
    {
        let mut report = text;
        put(&mut report, "\n")?;
        Ok(Ending {
            status: OTHER_WORDS,
            report,
        })
    }

    /// A file that could not be loaded.
    pub fn load_failed(alloc: Global, name: &str) -> Result<Ending, AllocError>
        ensures { IfOk result (λ ending. ending ≡ load_failed name.now) }
    {
        let mut report = Vec::new(alloc);
        put(&mut report, "# load failed ")?;
        put(&mut report, name)?;
        put(&mut report, "\n")?;
        Ok(Ending {
            status: NOT_LOADED,
            report,
        })
    }

    /// A file that is longer than its limit.
    pub fn too_long(alloc: Global, name: &str, limit: u32) -> Result<Ending, AllocError>
        ensures { IfOk result (λ ending. ending ≡ too_long name.now limit) }
    {
        let mut report = Vec::new(alloc);
        put(&mut report, "# too long ")?;
        put(&mut report, name)?;
        put_labelled(&mut report, " limit ", u128::from(limit))?;
        put(&mut report, "\n")?;
        Ok(Ending {
            status: NOT_LOADED,
            report,
        })
    }

    /// The statement is refused, for what the text says.
    pub fn refused_statement(text: Vec<u8>) -> Result<Ending, AllocError>
        ensures { IfOk result (λ ending. ending ≡ refused_statement text.items) }
    {
        let mut report = text;
        put(&mut report, "\n")?;
        Ok(Ending {
            status: FAULTY_STATEMENT,
            report,
        })
    }

    /// The evidence text is refused, for what the text says.
    pub fn refused_evidence(text: Vec<u8>) -> Result<Ending, AllocError>
        ensures { IfOk result (λ ending. ending ≡ refused_evidence text.items) }
    {
        let mut report = text;
        put(&mut report, "\n")?;
        Ok(Ending {
            status: REFUSED_EVIDENCE,
            report,
        })
    }

    /// Each block is accepted, as the lines say.
    pub fn accepted(lines: Vec<u8>) -> Ending
        ensures { result ≡ record { status = 0; report = lines.items } }
    {
        Ending {
            status: ACCEPTED,
            report: lines,
        }
    }

    /// A block is refused, as the last of the lines says.
    pub fn refused_block(lines: Vec<u8>) -> Ending
        ensures { result ≡ record { status = 7; report = lines.items } }
    {
        Ending {
            status: REFUSED_EVIDENCE,
            report: lines,
        }
    }

    /// Each claim is decided, as the text says, with the status of the verdicts.
    pub fn decided(status: u8, report: Vec<u8>) -> Ending
        ensures { result ≡ record { status = status; report = report.items } }
    {
        Ending { status, report }
    }
}
