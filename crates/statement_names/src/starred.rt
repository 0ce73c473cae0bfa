//! Whether a file has adjoints.

ghost use Rattle.std.specs.Prelude.{◌≡◌};
ghost use Rattle.statement_names.specs.Starred.{is_starred, is_starred_in};

use abbreviations::has_quote;
use statement_syntax::{Statement, StatementKind};

/// Whether a quote or the word `self` occurs in a statement, abbreviations written out.
pub fn is_starred(statements: &[Statement]) -> bool
    ensures { result ≡ is_starred statements.now }
{
    statements
        .iter()
        .any(|statement| is_starred_in(&statement.kind))
}

fn is_starred_in(statement: &StatementKind) -> bool
    ensures { result ≡ is_starred_in statement.now }
{
    match statement {
        StatementKind::Maps { selfmade, .. } => *selfmade,
        StatementKind::Assume(left, right) | StatementKind::Claim(left, right) => {
            has_quote(left) || has_quote(right)
        }
        StatementKind::Pinv(..) | StatementKind::Projection(_) => true,
        _ => false,
    }
}
