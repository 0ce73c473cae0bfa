//! A stage over the equations of a file, statement by statement.

ghost use Rattle.std.specs.Prelude.{◌≡◌, ◌++◌, ◌∷◌, [], map, None, IfOk, IfErr, OnOk};
ghost use Rattle.std.specs.List.{All};
ghost use Rattle.abbreviations.specs.Written.{equations_of, assumptions_of, claims_in, claims_of};
ghost use Rattle.statement_names.specs.Ready.{HasNames};
ghost use Rattle.signature_typing.specs.First.{first_among};
ghost use Rattle.signature_typing.specs.Fault.{Explains};
ghost use Rattle.signature_typing.specs.Typing.{Made, equation, equations_in, made_of, wrong_in};
ghost use Rattle.signature_typing.specs.Named.{AreNamed};

use crate::TypeFault;
use abbreviations::{Equation, abbreviation};
use lists::Listing;
use quiver::Quiver;
use statement_syntax::{Statement, StatementKind, Sum};
use statement_tokens::Spot;
use std::alloc::Global;

/// A stage over each equation of a file.
pub(crate) trait Stage {
    /// The value of an equation.
    type Value: Drop;
    /// The value as contracts see it.
    type Said;

    ghost made: { Self → Made Self.Said };

    ghost said: { Self → Self.Value → Self.Said };

    /// The value of an equation, whose statement begins at this place.
    fn value_of(
        &self,
        alloc: Global,
        quiver: &Quiver,
        at: Spot,
        left: &Sum,
        right: &Sum,
    ) -> Result<Self::Value, TypeFault>
        requires { HasNames quiver.now (equation left.now right.now) }
        ensures ok { IfOk result (λ value. said self.now value ∷ [] ≡ (made self.now).values quiver.now (equation left.now right.now)) }
        ensures fits { OnOk result ((made self.now).fault quiver.now at (equation left.now right.now) ≡ None) }
        ensures err { IfErr result (Explains ((made self.now).fault quiver.now at (equation left.now right.now))) };
}

/// The values of the assumptions and of the claims.
#[derive(Drop)]
pub(crate) struct Stated<V: Drop> {
    pub assumptions: Listing<V>,
    pub claims: Listing<V>,
}

// Adds the values of the equations, whose statement begins at this place.
#[tactic(auto, using(crate::proofs::Progress::progress))]
fn push_equations<S: Stage>(
    alloc: Global,
    stage: &S,
    quiver: &Quiver,
    at: Spot,
    values: &mut Listing<S::Value>,
    equations: &[Equation],
) -> Result<(), TypeFault>
    requires { All (HasNames quiver.now) equations.now }
    ensures ok { OnOk result (map (S.said stage.now) values.new ≡ map (S.said stage.now) values.old ++ made_of (S.made stage.now) quiver.now equations.now) }
    ensures fits { OnOk result (first_among ((S.made stage.now).fault quiver.now at) equations.now ≡ None) }
    ensures err { IfErr result (Explains (first_among ((S.made stage.now).fault quiver.now at) equations.now)) }
{
    for equation in equations {
        let value = stage.value_of(alloc, quiver, at, &equation.left, &equation.right)?;
        values.push(value)?;
    }
    Ok(())
}

// Adds the values of the equations of the statement.
fn push_statement<S: Stage>(
    alloc: Global,
    stage: &S,
    quiver: &Quiver,
    stated: &mut Stated<S::Value>,
    statement: &Statement,
) -> Result<(), TypeFault>
    requires { All (HasNames quiver.now) (equations_in quiver.now statement.now) }
    ensures assumptions { OnOk result (map (S.said stage.now) stated.new.assumptions ≡ map (S.said stage.now) stated.old.assumptions
        ++ made_of (S.made stage.now) quiver.now (equations_of quiver.now statement.now)) }
    ensures claims { OnOk result (map (S.said stage.now) stated.new.claims ≡ map (S.said stage.now) stated.old.claims
        ++ made_of (S.made stage.now) quiver.now (claims_in statement.now.kind)) }
    ensures fits { OnOk result (wrong_in (S.made stage.now) quiver.now statement.now ≡ None) }
    ensures err { IfErr result (Explains (wrong_in (S.made stage.now) quiver.now statement.now)) }
{
    match &statement.kind {
        StatementKind::Assume(left, right) => {
            let value = stage.value_of(alloc, quiver, statement.at, left, right)?;
            stated.assumptions.push(value)?;
        }
        StatementKind::Claim(left, right) => {
            let value = stage.value_of(alloc, quiver, statement.at, left, right)?;
            stated.claims.push(value)?;
        }
        _ => {
            let equations = abbreviation(alloc, quiver, statement)?;
            push_equations(
                alloc,
                stage,
                quiver,
                statement.at,
                &mut stated.assumptions,
                equations.as_slice(),
            )?;
        }
    }
    Ok(())
}

/// The values of the equations of a file, or the first fault that the stage finds.
#[tactic(auto, using(crate::proofs::Progress::progress))]
pub(crate) fn all_stated<S: Stage>(
    alloc: Global,
    stage: &S,
    quiver: &Quiver,
    statements: &[Statement],
) -> Result<Stated<S::Value>, TypeFault>
    requires { AreNamed quiver.now statements.now }
    ensures assumptions { IfOk result (λ all. map (S.said stage.now) all.assumptions
        ≡ made_of (S.made stage.now) quiver.now (assumptions_of quiver.now statements.now)) }
    ensures claims { IfOk result (λ all. map (S.said stage.now) all.claims ≡ made_of (S.made stage.now) quiver.now (claims_of statements.now)) }
    ensures fits { OnOk result (first_among (wrong_in (S.made stage.now) quiver.now) statements.now ≡ None) }
    ensures err { IfErr result (Explains (first_among (wrong_in (S.made stage.now) quiver.now) statements.now)) }
{
    let mut stated = Stated {
        assumptions: Listing::new(alloc),
        claims: Listing::new(alloc),
    };
    for statement in statements {
        push_statement(alloc, stage, quiver, &mut stated, statement)?;
    }
    Ok(stated)
}
