//! The names, literals and first words of a statement, kind by kind.

ghost use Rattle.std.specs.Prelude.{◌≡◌, ◌∷◌, [], ◌++◌, map};
ghost use Rattle.lists.specs.Stop.{Gives};
ghost use Rattle.statement_names.specs.Occurrences.{declares_map, begins_assumptions, used_names, kind_occurrences, statement_occurrences};
ghost use Rattle.statement_names.specs.Survey.{run, outcome};
ghost use Rattle.statement_names.specs.Uses.{use_of};

use crate::kinds::Kind;
use crate::literal::check_modulus;
use crate::survey::Survey;
use adjoint_rules::SHAPE_SIDE_LIMIT;
use lists::Stop;
use statement_syntax::{Name, Number, Statement, StatementKind, Sum};
use statement_tokens::{Placed, Spot};
use std::alloc::Global;
use word_orders::WEIGHT_LIMIT;

impl Survey {
    // All names, literals and first words of a statement.
    pub(crate) fn statement(
        &mut self,
        alloc: Global,
        statement: &Statement,
    ) -> Result<(), Stop<Placed>>
        ensures { Gives (λ done. self.new) result (run self.old (statement_occurrences statement.now)) }
    {
        let at = statement.at;
        match &statement.kind {
            StatementKind::Language => Ok(()),
            StatementKind::Objects(names) => Ok(self.objects(names.as_slice())?),
            StatementKind::Maps {
                names,
                source,
                target,
                selfmade,
            } => Ok(self.maps_between(names.as_slice(), source, target, *selfmade)?),
            StatementKind::Assume(left, right) => Ok(self.assumption(at, left, right)?),
            StatementKind::Claim(left, right) => Ok(self.claimed(at, left, right)?),
            StatementKind::Pinv(a, x) => Ok(self.abbreviation(4, at, a, x)?),
            StatementKind::Inverse(a, x) => Ok(self.abbreviation(2, at, a, x)?),
            StatementKind::Inner(a, x) => Ok(self.abbreviation(1, at, a, x)?),
            StatementKind::Projection(p) => Ok(self.projection(at, p)?),
            StatementKind::Degree => Ok(self.order(at)?),
            StatementKind::Weight(weights) => self.weights(alloc, at, weights.as_slice()),
            StatementKind::Solve(names) => self.names(alloc, names.as_slice()),
            StatementKind::Eliminate(names) => self.eliminated(alloc, at, names.as_slice()),
            StatementKind::Shape { modulus, sides } => self.shape_with(
                alloc,
                at,
                modulus,
                sides.as_slice(),
            ),
        }
    }

    // Maps that are declared, and their two ends.
    #[tactic(auto, using(crate::proofs::Runs::run_on))]
    fn maps_between(
        &mut self,
        names: &[Name],
        source: &Name,
        target: &Name,
        selfmade: bool,
    ) -> Result<(), Placed>
        ensures { run self.old (map (λ name. declares_map name source.now.text target.now.text selfmade) names.now
            ++ used_names (use_of Kind.Object source.now ∷ use_of Kind.Object target.now ∷ [])) ≡ outcome self.new result }
    {
        self.maps(names, source, target, selfmade)?;
        self.two(source, target, Kind::Object)
    }

    // An assumption.
    fn assumption(&mut self, at: Spot, left: &Sum, right: &Sum) -> Result<(), Placed>
        ensures { run self.old (kind_occurrences at (StatementKind.Assume left.now right.now)) ≡ outcome self.new result }
    {
        self.assumptions(1, at)?;
        self.sides(left, right)
    }

    // A claim.
    fn claimed(&mut self, at: Spot, left: &Sum, right: &Sum) -> Result<(), Placed>
        ensures { run self.old (kind_occurrences at (StatementKind.Claim left.now right.now)) ≡ outcome self.new result }
    {
        self.claim(at)?;
        self.sides(left, right)
    }

    // An abbreviation of this many assumptions on two maps.
    fn abbreviation(
        &mut self,
        count: u32,
        at: Spot,
        first: &Name,
        second: &Name,
    ) -> Result<(), Placed>
        ensures { run self.old (begins_assumptions count at ∷ used_names (use_of Kind.Map first.now ∷ use_of Kind.Map second.now ∷ []))
            ≡ outcome self.new result }
    {
        self.assumptions(count, at)?;
        self.two(first, second, Kind::Map)
    }

    // A projection.
    fn projection(&mut self, at: Spot, name: &Name) -> Result<(), Placed>
        ensures { run self.old (kind_occurrences at (StatementKind.Projection name.now)) ≡ outcome self.new result }
    {
        self.assumptions(2, at)?;
        self.name(name, Kind::Map)
    }

    // An order by weights.
    fn weights(
        &mut self,
        alloc: Global,
        at: Spot,
        weights: &[(Name, Number)],
    ) -> Result<(), Stop<Placed>>
        ensures { Gives (λ done. self.new) result (run self.old (kind_occurrences at (StatementKind.Weight weights.now))) }
    {
        self.order(at)?;
        self.pairs(alloc, weights, Kind::Map, WEIGHT_LIMIT)
    }

    // An order by the maps that are eliminated.
    fn eliminated(&mut self, alloc: Global, at: Spot, names: &[Name]) -> Result<(), Stop<Placed>>
        ensures { Gives (λ done. self.new) result (run self.old (kind_occurrences at (StatementKind.Eliminate names.now))) }
    {
        self.order(at)?;
        self.names(alloc, names)
    }

    // A shape of models.
    fn shape_with(
        &mut self,
        alloc: Global,
        at: Spot,
        modulus: &Number,
        sides: &[(Name, Number)],
    ) -> Result<(), Stop<Placed>>
        ensures { Gives (λ done. self.new) result (run self.old (kind_occurrences at (StatementKind.Shape modulus.now sides.now))) }
    {
        self.shape(at)?;
        check_modulus(modulus)?;
        self.pairs(alloc, sides, Kind::Object, SHAPE_SIDE_LIMIT)
    }
}
