//! What names are declared as: objects or maps.

ghost use Rattle.std.specs.Prelude.{◌≡◌, [], take, is_some, IfOk, OnOk, OnErr};
ghost use Rattle.statement_names.specs.Faults.{declared_in, kind_in};
ghost use Rattle.statement_names.specs.Occurrences.{occurrences_of};
ghost use Rattle.statement_names.specs.Survey.{with_kind, with_kinds, kinded, kinds_by};

use indexmap::IndexMap;
use statement_syntax::{Name, Statement, StatementKind};
use std::alloc::{AllocError, Global};
use std::marker::Model;

/// What a name is declared as.
#[derive(Clone, Copy, PartialEq, Eq)]
pub enum Kind {
    Object,
    Map,
}

/// What each of some names is declared as, in the order of their first declarations.
#[derive(Drop)]
pub struct Kinds {
    kinds: IndexMap<String, Kind>,
}

impl Model for Kinds {
    ghost use Rattle.std.specs.Prelude.{List, ℕ, map, string_bytes};
    ghost use Rattle.statement_names.specs.declared.kinds.Kind.{Kind};

    ghost Value = { List (List ℕ × Kind) };

    ghost view = { λ k. map (λ e. (string_bytes e.0, e.1)) k.kinds.entries };
}

impl Kinds {
    /// No names.
    pub fn new(alloc: Global) -> Kinds
        ensures { result ≡ [] }
    {
        Kinds {
            kinds: IndexMap::new(alloc),
        }
    }

    /// What the name is declared as.
    pub fn kind_of(&self, name: &str) -> Option<Kind>
        ensures { result ≡ kind_in self.now name.now }
    {
        self.kinds.get(name).copied()
    }

    /// Whether the name is one of the first `count`.
    #[tactic(auto, using(crate::proofs::Keys::among_first))]
    pub fn is_among_first(&self, count: usize, name: &str) -> bool
        ensures { result ≡ is_some (kind_in (take count self.now) name.now) }
    {
        match self.kinds.get_index_of(name) {
            Some(place) => place < count,
            None => false,
        }
    }

    /// Declares the name, unless it is declared already. Where memory is short, nothing changes.
    #[tactic(auto, using(crate::proofs::Keys::bytes_inserted))]
    pub fn declare(&mut self, name: &str, kind: Kind) -> Result<(), AllocError>
        ensures ok { OnOk result (self.new ≡ with_kind self.old name.now kind) }
        ensures err { OnErr result (self.new ≡ self.old) }
    {
        if self.kind_of(name).is_some() {
            return Ok(());
        }
        let key = String::from_str(*self.kinds.allocator(), name)?;
        self.kinds.insert(key, kind)?;
        Ok(())
    }
}

/// What each name of some statements is declared as, in the order of their first declarations.
#[tactic(auto, using(std::proofs::lemmas::Grind::common_steps, crate::proofs::Quiet::declared_statements))]
pub fn kinds_of(alloc: Global, statements: &[Statement]) -> Result<Kinds, AllocError>
    ensures { IfOk result (λ kinds. kinds ≡ with_kinds [] (declared_in (occurrences_of statements.now))) }
{
    let mut kinds = Kinds::new(alloc);
    for statement in statements {
        put_statement(&mut kinds, &statement.kind)?;
    }
    Ok(kinds)
}

// Declares what the statement declares.
fn put_statement(kinds: &mut Kinds, statement: &StatementKind) -> Result<(), AllocError>
    ensures { OnOk result (kinds.new ≡ with_kinds kinds.old (kinds_by statement.now)) }
{
    match statement {
        StatementKind::Objects(names) => put_names(kinds, names.as_slice(), Kind::Object),
        StatementKind::Maps { names, .. } => put_names(kinds, names.as_slice(), Kind::Map),
        _ => Ok(()),
    }
}

// Declares names as objects or as maps.
fn put_names(kinds: &mut Kinds, names: &[Name], kind: Kind) -> Result<(), AllocError>
    ensures { OnOk result (kinds.new ≡ with_kinds kinds.old (kinded kind names.now)) }
{
    for name in names {
        kinds.declare(name.text.as_str(), kind)?;
    }
    Ok(())
}
