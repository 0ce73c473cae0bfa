//! What the names of a file stand for, or their first fault.

ghost use Rattle.std.specs.Prelude.{◌≡◌, IfOk, IfErr, OnOk, Some, None};
ghost use Rattle.lists.specs.Stop.{Explains};
ghost use Rattle.statement_names.specs.Faults.{name_fault_of};
ghost use Rattle.statement_names.specs.Numbered.{declarations_of};
ghost use Rattle.statement_names.specs.Ordered.{order_of};
ghost use Rattle.statement_names.specs.Solved.{solved_of};
ghost use Rattle.statement_names.specs.Marked.{marked_of};
ghost use Rattle.statement_names.specs.Starred.{is_starred};
ghost use Rattle.statement_names.specs.Shapes.{shapes_of};
ghost use Rattle.statement_names.specs.Ready.{IsReady};

use crate::declarations::declare_all;
use crate::marked::read_marked;
use crate::order::read_order;
use crate::shapes::read_shapes;
use crate::solved::read_solved;
use crate::starred::is_starred;
use crate::survey::check_names;
use adjoint_rules::Shape;
use lists::{Listing, Stop};
use quiver::Quiver;
use statement_syntax::{Statement, Tree};
use statement_tokens::Placed;
use std::alloc::{AllocError, Global};
use word_core::{Letter, Object};
use word_orders::OrderSpec;

/// What the names of a file stand for.
#[derive(Drop)]
pub struct Names {
    /// All objects, and then all maps, in the order of the file.
    pub quiver: Quiver,
    /// The order of words that the file asks for.
    pub order: OrderSpec,
    /// Whether `'` or `self` occurs in a statement, or there is a `pinv` or `projection`.
    pub starred: bool,
    /// The objects whose identities occur, ascending.
    pub marked: Listing<Object>,
    /// The shapes of the models that are searched.
    pub shapes: Listing<Shape>,
    /// The maps that are to be solved for, ascending.
    pub solved: Listing<Letter>,
}

/// What the names of a file stand for, or their first fault.
pub fn read_names(alloc: Global, tree: &Tree) -> Result<Names, Stop<Placed>>
    ensures sound { OnOk result (name_fault_of tree.now.statements ≡ None) }
    ensures fault { IfErr result (Explains (λ fault. name_fault_of tree.now.statements ≡ Some fault)) }
    ensures quiver { IfOk result (λ names. names.quiver ≡ declarations_of tree.now.statements) }
    ensures order { IfOk result (λ names. names.order ≡ order_of names.quiver tree.now.statements) }
    ensures starred { IfOk result (λ names. names.starred ≡ is_starred tree.now.statements) }
    ensures marked { IfOk result (λ names. names.marked ≡ marked_of names.quiver tree.now.statements) }
    ensures shapes { IfOk result (λ names. names.shapes ≡ shapes_of names.quiver tree.now.statements) }
    ensures solved { IfOk result (λ names. names.solved ≡ solved_of names.quiver tree.now.statements) }
    // What later stages need.
    ensures ready { IfOk result (λ names. IsReady names.quiver tree.now.statements) }
{
    let statements = tree.statements.as_slice();
    check_names(alloc, statements)?;
    let quiver = declare_all(alloc, statements)?;
    match read_lists(alloc, &quiver, statements) {
        Ok((order, marked, shapes, solved)) => Ok(Names {
            quiver,
            order,
            starred: is_starred(statements),
            marked,
            shapes,
            solved,
        }),
        Err(failed) => {
            drop(quiver);
            Err(Stop::Memory(failed))
        }
    }
}

// The order of words, the marked objects, the shapes and the maps that are solved for.
fn read_lists(
    alloc: Global,
    quiver: &Quiver,
    statements: &[Statement],
) -> Result<(OrderSpec, Listing<Object>, Listing<Shape>, Listing<Letter>), AllocError>
    requires sound { name_fault_of statements.now ≡ None }
    requires declared { quiver.now ≡ declarations_of statements.now }
    ensures order { IfOk result (λ lists. lists.0 ≡ order_of quiver.now statements.now) }
    ensures marked { IfOk result (λ lists. lists.1 ≡ marked_of quiver.now statements.now) }
    ensures shapes { IfOk result (λ lists. lists.2 ≡ shapes_of quiver.now statements.now) }
    ensures solved { IfOk result (λ lists. lists.3 ≡ solved_of quiver.now statements.now) }
{
    let order = read_order(alloc, quiver, statements)?;
    let marked = read_marked(alloc, quiver, statements)?;
    let shapes = read_shapes(alloc, quiver, statements)?;
    let solved = read_solved(alloc, quiver, statements)?;
    Ok((order, marked, shapes, solved))
}
