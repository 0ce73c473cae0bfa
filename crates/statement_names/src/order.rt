//! The order of words that a file asks for.

ghost use Rattle.std.specs.Prelude.{◌≡◌, ◌≤◌, None, IfOk, IsTrue};
ghost use Rattle.std.specs.List.{All, flat_map};
ghost use Rattle.word_orders.specs.Limits.{weight_limit};
ghost use Rattle.quiver.specs.Declarations.{named_in};
ghost use Rattle.abbreviations.specs.Names.{is_map};
ghost use Rattle.statement_names.specs.Faults.{name_fault_of, value_of};
ghost use Rattle.statement_names.specs.Numbered.{declarations_of};
ghost use Rattle.statement_names.specs.Ordered.{order_of, letters_for, weights_of};

use crate::literal::value_of;
use abbreviations::letter_of;
use lists::Listing;
use quiver::Quiver;
use statement_syntax::{Name, Number, Statement, StatementKind};
use std::alloc::{AllocError, Global};
use word_core::Letter;
use word_orders::OrderSpec;

/// The order that statements ask for, whose names have no fault.
pub fn read_order(
    alloc: Global,
    quiver: &Quiver,
    statements: &[Statement],
) -> Result<OrderSpec, AllocError>
    requires sound { name_fault_of statements.now ≡ None }
    requires declared { quiver.now ≡ declarations_of statements.now }
    ensures { IfOk result (λ order. order ≡ order_of quiver.now statements.now) }
{
    for statement in statements {
        match &statement.kind {
            StatementKind::Degree => return Ok(OrderSpec::Degree),
            StatementKind::Weight(weights) => {
                let weights = weights_of(alloc, quiver, weights.as_slice())?;
                return Ok(OrderSpec::Weight(weights));
            }
            StatementKind::Eliminate(names) => {
                let block = block_of(alloc, quiver, names.as_slice())?;
                return Ok(OrderSpec::Block(block));
            }
            _ => {}
        }
    }
    Ok(OrderSpec::Degree)
}

// The weights of maps and their adjoints.
fn weights_of(
    alloc: Global,
    quiver: &Quiver,
    pairs: &[(Name, Number)],
) -> Result<Listing<(Letter, u32)>, AllocError>
    requires maps { All (λ pair. IsTrue (is_map (named_in quiver.now pair.0.text))) pairs.now }
    requires small { All (λ pair. value_of pair.1.value ≤ weight_limit) pairs.now }
    ensures { IfOk result (λ weights. weights ≡ flat_map (weights_of quiver.now) pairs.now) }
{
    let mut weights = Listing::new(alloc);
    for pair in pairs {
        let letter = letter_of(quiver, &pair.0);
        let star = quiver.star_of(letter);
        let weight = value_of(&pair.1) as u32;
        weights.push((letter, weight))?;
        if star != letter {
            weights.push((star, weight))?;
        }
    }
    Ok(weights)
}

// The letters of maps and their adjoints.
fn block_of(alloc: Global, quiver: &Quiver, names: &[Name]) -> Result<Listing<Letter>, AllocError>
    requires { All (λ name. IsTrue (is_map (named_in quiver.now name.text))) names.now }
    ensures { IfOk result (λ block. block ≡ flat_map (letters_for quiver.now) names.now) }
{
    let mut block = Listing::new(alloc);
    for name in names {
        let letter = letter_of(quiver, name);
        let star = quiver.star_of(letter);
        block.push(letter)?;
        if star != letter {
            block.push(star)?;
        }
    }
    Ok(block)
}
