//! Matrices and shapes of models: which are made, and which are refused.
use crate::comparing::equal;
use adjoint_rules::Shape;
use lists::Listing;
use matrix_models::{Matrix, MatrixFault};
use model_candidates::{ShapeFault, check_shape};
use std::alloc::Global;
use std::process::Abort;

// What becomes of something: that it is made, or what is refused and at which place.
type Told = (&'static str, usize);

const MADE: Told = ("made", 0);

// Rows, columns and entries modulo 2.
const MATRICES: &[(u32, u32, &[u32], Told)] = &[
    (1, 1, &[2], ("entry", 0)),
    (2, 2, &[0, 1, 1, 0], MADE),
    (1, 64, &[0; 64], MADE),
    (2, 2, &[0, 1, 2, 2], ("entry", 2)),
    (0, 1, &[], ("shape", 0)),
    (1, 0, &[], ("shape", 0)),
    (65, 1, &[0; 65], ("shape", 0)),
    (1, 65, &[0; 65], ("shape", 0)),
    (2, 2, &[2, 2, 2], ("shape", 0)),
];

fn told_matrix(alloc: Global, rows: u32, columns: u32, entries: &[u32]) -> Told {
    match Matrix::new(alloc, 2, rows, columns, entries) {
        Ok(_) => MADE,
        Err(MatrixFault::BadShape) => ("shape", 0),
        Err(MatrixFault::EntryTooLarge { place }) => ("entry", place),
        Err(MatrixFault::Memory(_)) => ("memory", 0),
    }
}

#[test]
fn sides_and_entries_are_refused(rt: HostRuntime) {
    for (rows, columns, entries, want) in MATRICES {
        let told = told_matrix(rt.alloc(), *rows, *columns, entries);
        equal(&rt, &told, want, "a matrix");
    }
}

// A modulus, the sides of the objects, and what is told of the shape: a side by its object.
const SHAPES: &[(u32, &[u32], Told)] = &[
    (4, &[1, 1], ("modulus", 0)),
    (2, &[1, 7], ("side", 1)),
    (2, &[1, 2], MADE),
    (65537, &[6, 1], MADE),
    (65536, &[1], ("modulus", 0)),
    // of two bad sides the first, and the modulus before any side
    (3, &[6, 0, 7], ("side", 1)),
    (4, &[7], ("modulus", 0)),
];

fn told_shape(rt: &impl Abort, alloc: Global, modulus: u32, sides: &[u32]) -> Told {
    assert!(rt; sides.len() < 7, "there are too many sides for a test");
    let sides = Listing::from_vec(sides.to_vec(alloc).expect(rt, "memory"));
    match check_shape(&Shape { modulus, sides }) {
        Ok(()) => MADE,
        Err(ShapeFault::BadModulus) => ("modulus", 0),
        Err(ShapeFault::BadSide { object }) => ("side", usize::from(object.0)),
    }
}

#[test]
fn the_modulus_counts_before_the_sides(rt: HostRuntime) {
    for (modulus, sides, want) in SHAPES {
        let told = told_shape(&rt, rt.alloc(), *modulus, sides);
        equal(&rt, &told, want, "a shape");
    }
}
