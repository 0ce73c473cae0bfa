//! The blocks of an evidence text, judged one after another.
ghost use Rattle.std.specs.Prelude.{ℕ, List, ◌≡◌, ◌++◌, IfOk, OnOk, codes, decimal};
ghost use Rattle.std.specs.List.{All};
ghost use Rattle.adjoint_rules.specs.declared.problem.Problem.{Problem as Posed};
ghost use Rattle.command_shape.specs.Ending.{line};
ghost use Rattle.command_shape.specs.Blocks.{Judges};
ghost use Rattle.command_shape.specs.Judged.{Tells};
ghost use Rattle.command_shape.specs.Stop.{EndsAs};

use crate::ending::Ending;
use adjoint_rules::Problem;
use block_text::{put, put_labelled};
use lists::Stop;
use std::alloc::{AllocError, Global};

/// The result of judging a block.
#[derive(Drop)]
pub enum Judged {
    /// It is accepted, and the text says what that shows.
    Accepted(Vec<u8>),
    /// It is refused, and the text is the cause.
    Refused(Vec<u8>),
}

/// What judges blocks of an evidence text, each over the problem of a statement.
pub trait Judge {
    /// What is judged.
    type Block;

    /// Which blocks can be judged.
    ghost can_judge: { Posed → Self.Block → Type 0 };

    /// The text of an accepted block.
    ghost accepts: { Posed → Self.Block → List ℕ → Type 0 };

    /// The cause of a refused block.
    ghost refuses: { Posed → Self.Block → List ℕ → Type 0 };

    /// Judges a block.
    fn judge(
        &self,
        alloc: Global,
        problem: &Problem,
        block: &Self::Block,
    ) -> Result<Judged, AllocError>
        requires { can_judge problem.now block.now }
        ensures { IfOk result (Tells (accepts problem.now block.now) (refuses problem.now block.now)) };
}

/// How a run ends over a problem and blocks: a line on each block, up to the first that is refused.
pub fn judge_blocks<J: Judge>(
    alloc: Global,
    judge: &J,
    problem: &Problem,
    blocks: &[J::Block],
) -> Result<Ending, Stop<Ending>>
    requires { All (J.can_judge problem.now) blocks.now }
    ensures { EndsAs (Judges (J.accepts problem.now) (J.refuses problem.now) blocks.now) result }
{
    let mut report = Vec::new(alloc);
    for (place, block) in blocks.iter().enumerate() {
        match judge.judge(alloc, problem, block)? {
            Judged::Accepted(text) => put_block(&mut report, place + 1, " ", &text)?,
            Judged::Refused(cause) => {
                put_block(&mut report, place + 1, " refused ", &cause)?;
                return Ok(Ending::refused_block(report));
            }
        }
    }
    Ok(Ending::accepted(report))
}

// Appends the line of a block: its number, and its text.
fn put_block(
    report: &mut Vec<u8>,
    block: usize,
    verdict: &str,
    text: &[u8],
) -> Result<(), AllocError>
    ensures { OnOk result (report.new.items ≡ report.old.items ++ line (codes "# block " ++ (decimal block ++ (verdict.now ++ text.now)))) }
{
    put_labelled(report, "# block ", block as u128)?;
    put(report, verdict)?;
    report.extend_from_slice(text)?;
    put(report, "\n")
}
