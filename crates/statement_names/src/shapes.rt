//! The shapes of models that a file asks for, or the two default ones where it asks for none.

ghost use Rattle.std.specs.Prelude.{◌≡◌, ◌≤◌, ◌<◌, map, replicate, None, IfOk, IsTrue};
ghost use Rattle.std.specs.List.{All, IsDistinct};
ghost use Rattle.std.specs.Str.{bytes_eq};
ghost use Rattle.quiver.specs.Declarations.{named_in, object_count};
ghost use Rattle.abbreviations.specs.Names.{is_object};
ghost use Rattle.adjoint_rules.specs.Limits.{shape_side_limit};
ghost use Rattle.statement_names.specs.Faults.{name_fault_of, value_of};
ghost use Rattle.statement_names.specs.Numbered.{declarations_of};
ghost use Rattle.statement_names.specs.Shapes.{shape, sides_of, shapes_of};

use crate::literal::value_of;
use abbreviations::object_of;
use adjoint_rules::Shape;
use lists::Listing;
use quiver::Quiver;
use statement_syntax::{Name, Number, Statement, StatementKind};
use std::alloc::{AllocError, Global};

/// The shapes of models that statements ask for, whose names have no fault, or the two default ones where they ask for none.
pub fn read_shapes(
    alloc: Global,
    quiver: &Quiver,
    statements: &[Statement],
) -> Result<Listing<Shape>, AllocError>
    requires sound { name_fault_of statements.now ≡ None }
    requires declared { quiver.now ≡ declarations_of statements.now }
    ensures { IfOk result (λ shapes. shapes ≡ shapes_of quiver.now statements.now) }
{
    let mut shapes = Listing::new(alloc);
    for statement in statements {
        if let StatementKind::Shape { modulus, sides } = &statement.kind {
            let sides = sides_of(alloc, quiver, sides.as_slice())?;
            let modulus = value_of(modulus) as u32;
            shapes.push(Shape { modulus, sides })?;
        }
    }
    if shapes.len() == 0 {
        shapes.push(even_shape(alloc, quiver, 1)?)?;
        shapes.push(even_shape(alloc, quiver, 2)?)?;
    }
    Ok(shapes)
}

// The shape of modulus 2 in which all objects have this side.
fn even_shape(alloc: Global, quiver: &Quiver, side: u32) -> Result<Shape, AllocError>
    ensures { IfOk result (λ s. s ≡ shape 2 (replicate (object_count quiver.now) side)) }
{
    let sides = vec![in alloc; side; quiver.objects() as usize]?;
    Ok(Shape {
        modulus: 2,
        sides: Listing::from_vec(sides),
    })
}

// The side of each object, which is 1 where none is given.
fn sides_of(
    alloc: Global,
    quiver: &Quiver,
    pairs: &[(Name, Number)],
) -> Result<Listing<u32>, AllocError>
    requires objects { All (λ pair. IsTrue (is_object (named_in quiver.now pair.0.text))) pairs.now }
    requires small { All (λ pair. value_of pair.1.value ≤ shape_side_limit) pairs.now }
    requires once { IsDistinct bytes_eq (map (λ pair. pair.0.text) pairs.now) }
    ensures { IfOk result (λ sides. sides ≡ sides_of quiver.now pairs.now) }
{
    let mut sides = vec![in alloc; 1u32; quiver.objects() as usize]?;
    for pair in pairs {
        let object = object_of(quiver, &pair.0);
        sides[usize::from(object.0)] = value_of(&pair.1) as u32;
    }
    Ok(Listing::from_vec(sides))
}
