//! The names that are used: whether they are declared, with the kind that is expected, and once in a list.

ghost use Rattle.std.specs.Prelude.{◌≡◌, ◌∷◌, [], ◌++◌, Some, None, OnOk, IfErr};
ghost use Rattle.std.specs.List.{flat_map};
ghost use Rattle.std.specs.Result.{result_err};
ghost use Rattle.lists.specs.Stop.{Explains, Gives};
ghost use Rattle.statement_names.specs.Faults.{kind_in, is_kind, used_fault};
ghost use Rattle.statement_names.specs.Occurrences.{lists, names_behind, pairs_behind, used_names, mark_occurrences, primary_occurrences};
ghost use Rattle.statement_names.specs.Occurrences.{factor_occurrences, term_occurrences, sum_occurrences, sides_occurrences};
ghost use Rattle.statement_names.specs.Survey.{fault_at, run, outcome, names_in};
ghost use Rattle.statement_names.specs.Uses.{use_of};

use crate::kinds::{Kind, Kinds};
use crate::literal::check_count;
use crate::survey::Survey;
use lists::Stop;
use statement_syntax::{Factor, Mark, Name, Number, Primary, Sum, Term};
use statement_tokens::{Fault, Placed};
use std::alloc::Global;

/// The greatest exponent of a power.
pub const EXPONENT_LIMIT: u32 = 500;

impl Survey {
    // Whether the name is declared as this.
    pub(crate) fn is_of_kind(&self, name: &Name, kind: Kind) -> bool
        ensures { result ≡ is_kind (kind_in self.now.kinds name.now.text) kind }
    {
        self.kinds.kind_of(name.text.as_str()) == Some(kind)
    }

    // A name that is used as an object or a map.
    pub(crate) fn name(&self, name: &Name, kind: Kind) -> Result<(), Placed>
        ensures { result_err result ≡ used_fault (kind_in self.now.kinds) (use_of kind name.now) }
    {
        if !self.is_of_kind(name, kind) {
            return Err(Fault::Unknown.at(name.at));
        }
        Ok(())
    }

    // A name of a list, after those before it.
    #[tactic(auto, using(crate::proofs::KindsFound::among_names_in))]
    pub(crate) fn listed(
        &self,
        listed: &mut Kinds,
        name: &Name,
        kind: Kind,
    ) -> Result<(), Stop<Placed>>
        ensures ok { OnOk result (fault_at self.now (lists (names_in listed.old) (use_of kind name.now)) ≡ None) }
        ensures after { OnOk result (names_in listed.new ≡ names_in listed.old ++ name.now.text ∷ []) }
        ensures err { IfErr result (Explains (λ fault. fault_at self.now (lists (names_in listed.old) (use_of kind name.now)) ≡ Some fault)) }
    {
        self.name(name, kind)?;
        let text = name.text.as_str();
        if listed.kind_of(text).is_some() {
            return Err(Stop::Fault(Fault::Double.at(name.at)));
        }
        listed.declare(text, kind)?;
        Ok(())
    }

    // A list of names of maps.
    pub(crate) fn names(&self, alloc: Global, names: &[Name]) -> Result<(), Stop<Placed>>
        ensures { Gives (λ done. self.now) result (run self.now (names_behind Kind.Map [] names.now)) }
    {
        let mut listed = Kinds::new(alloc);
        for name in names {
            self.listed(&mut listed, name, Kind::Map)?;
        }
        Ok(())
    }

    // A list of names of this kind, each with a literal from 1 to `most`.
    pub(crate) fn pairs(
        &self,
        alloc: Global,
        pairs: &[(Name, Number)],
        kind: Kind,
        most: u32,
    ) -> Result<(), Stop<Placed>>
        ensures { Gives (λ done. self.now) result (run self.now (pairs_behind kind most [] pairs.now)) }
    {
        let mut listed = Kinds::new(alloc);
        for pair in pairs {
            if let Err(stop) = self.listed(&mut listed, &pair.0, kind) {
                drop(listed);
                return Err(stop);
            }
            if let Err(fault) = check_count(most, &pair.1) {
                drop(listed);
                return Err(Stop::Fault(fault));
            }
        }
        drop(listed);
        Ok(())
    }

    // The names and the exponents in an expression.
    #[cycle(expressions)]
    #[tactic(auto, using(std::proofs::lemmas::Grind::common_steps, crate::proofs::Runs::run_on, crate::proofs::Flat::sum_flat))]
    pub(crate) fn sum(&self, sum: &Sum) -> Result<(), Placed>
        ensures { run self.now (sum_occurrences sum.now) ≡ outcome self.now result }
    {
        for term in sum.terms.as_slice() {
            self.term(term)?;
        }
        Ok(())
    }

    #[cycle(expressions)]
    #[tactic(auto, using(std::proofs::lemmas::Grind::common_steps, crate::proofs::Runs::run_on, crate::proofs::Flat::term_flat))]
    fn term(&self, term: &Term) -> Result<(), Placed>
        ensures { run self.now (term_occurrences term.now) ≡ outcome self.now result }
    {
        for factor in term.factors.as_slice() {
            self.factor(factor)?;
        }
        Ok(())
    }

    #[cycle(expressions)]
    #[tactic(auto, using(crate::proofs::Runs::run_on))]
    fn factor(&self, factor: &Factor) -> Result<(), Placed>
        ensures { run self.now (factor_occurrences factor.now) ≡ outcome self.now result }
    {
        self.primary(&factor.primary)?;
        self.exponents(factor.marks.as_slice())
    }

    #[cycle(expressions)]
    fn primary(&self, primary: &Primary) -> Result<(), Placed>
        ensures { run self.now (primary_occurrences primary.now) ≡ outcome self.now result }
    {
        match primary {
            Primary::Letter(name) => self.name(name, Kind::Map),
            Primary::Identity(name) => self.name(name, Kind::Object),
            Primary::Bracket(sum) => self.sum(sum),
        }
    }

    // The exponents after a primary.
    fn exponents(&self, marks: &[Mark]) -> Result<(), Placed>
        ensures { run self.now (flat_map mark_occurrences marks.now) ≡ outcome self.now result }
    {
        for mark in marks {
            self.exponent(mark)?;
        }
        Ok(())
    }

    // The exponent of a mark that is a power.
    fn exponent(&self, mark: &Mark) -> Result<(), Placed>
        ensures { run self.now (mark_occurrences mark.now) ≡ outcome self.now result }
    {
        match mark {
            Mark::Adjoint => Ok(()),
            Mark::Power { exponent, .. } => check_count(EXPONENT_LIMIT, exponent),
        }
    }

    // Both sides of an equation.
    #[tactic(auto, using(crate::proofs::Runs::run_on))]
    pub(crate) fn sides(&self, left: &Sum, right: &Sum) -> Result<(), Placed>
        ensures { run self.now (sides_occurrences left.now right.now) ≡ outcome self.now result }
    {
        self.sum(left)?;
        self.sum(right)
    }

    // Two names that are used.
    pub(crate) fn two(&self, first: &Name, second: &Name, kind: Kind) -> Result<(), Placed>
        ensures { run self.now (used_names (use_of kind first.now ∷ use_of kind second.now ∷ [])) ≡ outcome self.now result }
    {
        self.name(first, kind)?;
        self.name(second, kind)
    }
}
