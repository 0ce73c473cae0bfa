//! The laws of expressions, which have nothing to run.
ghost use Rattle.expressions.specs.Laws.{EquationsAreTyped, LettersAreWritten};

/// The polynomial of an equation with a signature is typed: each word is a path of the signature.
/// It has nothing to run.
pub fn equations_are_typed()
    ensures { EquationsAreTyped }
{}

/// The letters of an equation's polynomial are those that the equation writes: maps, identities of the
/// objects in square brackets, and adjoints where there is a quote. It has nothing to run.
pub fn letters_are_written()
    ensures { LettersAreWritten }
{}
