//! The statement language: its text, read into a tree and written back.
#![tactic(auto)]

mod expected;
mod expression;
mod fault;
mod kinds;
mod laws;
mod line;
mod named;
mod numbered;
mod opening;
mod part;
mod read;
mod sides;
mod stack;
mod tree;
mod write;

pub use fault::SyntaxFault;
pub use laws::each_text_is_read;
pub use read::read_tree;
pub use tree::{Factor, Mark, Name, Number, Primary, Statement, StatementKind, Sum, Term, Tree};
pub use write::write_tree;
