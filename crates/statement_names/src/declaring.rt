//! The names that are declared: whether they are new, and whether there is room for them.

ghost use Rattle.std.specs.Prelude.{◌≡◌, map, is_some, OnOk};
ghost use Rattle.std.specs.Result.{result_err};
ghost use Rattle.statement_names.specs.Faults.{kind_in, are_two_objects};
ghost use Rattle.statement_names.specs.Occurrences.{declares_object, declares_map};
ghost use Rattle.statement_names.specs.Survey.{fault_at, behind, run, outcome, declared_before, declared_count};

use crate::kinds::Kind;
use crate::survey::{Survey, take_room};
use quiver::OBJECT_LIMIT;
use statement_syntax::Name;
use statement_tokens::{Fault, Placed};

impl Survey {
    // Objects that are declared.
    pub(crate) fn objects(&mut self, names: &[Name]) -> Result<(), Placed>
        ensures { run self.old (map (λ name. declares_object name) names.now) ≡ outcome self.new result }
    {
        for name in names {
            self.object(name)?;
        }
        Ok(())
    }

    // Maps that are declared between two objects.
    pub(crate) fn maps(
        &mut self,
        names: &[Name],
        source: &Name,
        target: &Name,
        selfmade: bool,
    ) -> Result<(), Placed>
        ensures { run self.old (map (λ name. declares_map name source.now.text target.now.text selfmade) names.now) ≡ outcome self.new result }
    {
        for name in names {
            self.map(name, source, target, selfmade)?;
        }
        Ok(())
    }

    // An object that is declared.
    fn object(&mut self, name: &Name) -> Result<(), Placed>
        ensures answer { result_err result ≡ fault_at self.old (declares_object name.now) }
        ensures after { OnOk result (self.new ≡ behind self.old (declares_object name.now)) }
    {
        let at = name.at;
        if self.is_declared(name) {
            return Err(Fault::Double.at(at));
        }
        let limit = OBJECT_LIMIT;
        take_room(&mut self.objects, 1, Fault::TooMany { limit }.at(at))
    }

    // A map that is declared between two objects.
    fn map(
        &mut self,
        name: &Name,
        source: &Name,
        target: &Name,
        selfmade: bool,
    ) -> Result<(), Placed>
        ensures answer { result_err result ≡ fault_at self.old (declares_map name.now source.now.text target.now.text selfmade) }
        ensures after { OnOk result (self.new ≡ behind self.old (declares_map name.now source.now.text target.now.text selfmade)) }
    {
        let at = name.at;
        if self.is_declared(name) {
            return Err(Fault::Double.at(at));
        }
        let limit = self.map_limit;
        take_room(&mut self.maps, 1, Fault::TooMany { limit }.at(at))?;
        if selfmade && self.are_two_objects(source, target) {
            return Err(Fault::NotSquare.at(at));
        }
        Ok(())
    }

    // Whether the name is declared already.
    fn is_declared(&self, name: &Name) -> bool
        ensures { result ≡ is_some (kind_in (declared_before self.now) name.now.text) }
    {
        self.kinds
            .is_among_first(self.declared(), name.text.as_str())
    }

    // How many names are declared so far, by the room that they took.
    fn declared(&self) -> usize
        ensures { result ≡ declared_count self.now }
    {
        let objects = OBJECT_LIMIT.saturating_sub(self.objects);
        let maps = self.map_limit.saturating_sub(self.maps);
        objects as usize + maps as usize
    }

    // Whether both names are objects, and not the same one.
    fn are_two_objects(&self, first: &Name, second: &Name) -> bool
        ensures { result ≡ are_two_objects (kind_in self.now.kinds) first.now.text second.now.text }
    {
        self.is_of_kind(first, Kind::Object)
            && self.is_of_kind(second, Kind::Object)
            && first.text.as_str() != second.text.as_str()
    }
}
