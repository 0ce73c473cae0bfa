//! Quivers: declared objects and maps, with the letters that they number.

ghost use Rattle.std.specs.Prelude.{◌≡◌, ◌<◌, ◌≤◌, ◌++◌, ◌∷◌, [], IfOk, IfErr, IfSome, OnOk, OnErr, None, Some};
ghost use Rattle.definitions.specs.Quiver.{IsQuiver, star, source, target};
ghost use Rattle.quiver.specs.Declarations.{object, arrow, object_count, map_count, letter_count, named_in, name_at, object_at, letter_at};
ghost use Rattle.quiver.specs.Declarations.{object_name, letter_name, identity_in, quiver_of, IsNamed, IsDeclared, ObjectsFirst};
ghost use Rattle.quiver.specs.Limits.{letter_limit};
ghost use Rattle.quiver.specs.Tables.{object_entry, letter_entry, IsNameMore};
ghost use Rattle.quiver.specs.Refusals.{object_fault, map_fault, Explains};

use crate::{Named, QuiverFault, Sig};
use indexmap::IndexMap;
use lists::Stop;
use std::alloc::{AllocError, Global};
use std::marker::Model;
use word_core::{Letter, Object};

/// The greatest number of objects.
pub const OBJECT_LIMIT: u32 = 64;

/// The greatest number of maps.
pub const MAP_LIMIT: u32 = 1000;

// An object: the letter that is its identity, and the place of its declaration.
#[derive(Clone, Copy)]
struct ObjectEntry {
    identity: Letter,
    declaration: usize,
}

// A letter: its ends, its adjoint, and the place of the declaration that it or its adjoint comes from.
#[derive(Clone, Copy)]
struct LetterEntry {
    ends: Sig,
    star: Letter,
    declaration: usize,
}

/// A quiver, which contracts see as the list of its declarations in the order of the calls.
#[derive(Drop)]
pub struct Quiver {
    // what each name stands for, in the order of the declarations
    names: IndexMap<String, Named>,
    // the objects and the letters by their numbers
    objects: Vec<ObjectEntry>,
    letters: Vec<LetterEntry>,
}

impl Model for Quiver {
    ghost use Rattle.std.specs.Prelude.{List};
    ghost use Rattle.quiver.specs.Declarations.{Declaration};

    ghost Value = { List Declaration };

    ghost use Rattle.quiver.specs.Tables.{declarations, IsKept};

    ghost view = { declarations };

    ghost invariant = { IsKept };
}

impl Quiver {
    /// The quiver with no declarations.
    pub fn new(alloc: Global) -> Result<Quiver, AllocError>
        ensures { IfOk result (λ q. q ≡ []) }
    {
        Ok(Quiver {
            names: IndexMap::new(alloc),
            objects: Vec::new(alloc),
            letters: Vec::new(alloc),
        })
    }

    /// Declares an object and its identity, which take the next free numbers of an object and a letter.
    /// `DoubleName` exactly where the name is declared, or else `TooMany` exactly where there are `OBJECT_LIMIT` objects.
    /// After a refusal the quiver is unchanged.
    pub fn add_object(&mut self, name: &str) -> Result<Object, Stop<QuiverFault>>
        ensures declared { OnOk result (self.new ≡ self.old ++ object name.now ∷ []) }
        ensures number { IfOk result (λ v. v.0 ≡ object_count self.old) }
        ensures fits { OnOk result (object_fault self.old name.now ≡ None) }
        ensures fault { IfErr result (Explains (object_fault self.old name.now)) }
        ensures unchanged { OnErr result (self.new ≡ self.old) }
    {
        self.check_object(name)?;
        Ok(self.declare_object(name)?)
    }

    /// Declares an object whose declaration has no fault, as `add_object` does. It fails only where memory is short, and then
    /// the quiver is unchanged.
    pub fn declare_object(&mut self, name: &str) -> Result<Object, AllocError>
        requires { object_fault self.old name.now ≡ None }
        ensures declared { OnOk result (self.new ≡ self.old ++ object name.now ∷ []) }
        ensures number { IfOk result (λ v. v.0 ≡ object_count self.old) }
        ensures unchanged { OnErr result (self.new ≡ self.old) }
    {
        let object = self.next_object();
        let identity = self.next_letter();
        let declaration = self.names.len();
        // As the room is taken first, nothing fails once the name is in.
        self.objects.reserve(1)?;
        self.letters.reserve(1)?;
        add_name(&mut self.names, name, Named::Object(object))?;
        self.objects.push(ObjectEntry {
            identity,
            declaration,
        })?;
        self.letters.push(LetterEntry {
            ends: Sig {
                source: object,
                target: object,
            },
            star: identity,
            declaration,
        })?;
        Ok(object)
    }

    /// Declares a map from the source to the target. It takes the next free letter, and its adjoint the one after that,
    /// unless the map is `selfmade`, its own adjoint.
    /// `DoubleName` exactly where the name is declared, or else `TooMany` exactly where there are `MAP_LIMIT` maps, or else `NotSquare`
    /// exactly where a map that is its own adjoint has two different ends. After a refusal the quiver is unchanged.
    pub fn add_map(
        &mut self,
        name: &str,
        source: Object,
        target: Object,
        selfmade: bool,
    ) -> Result<Letter, Stop<QuiverFault>>
        requires source_in { source.0 < object_count self.old }
        requires target_in { target.0 < object_count self.old }
        ensures declared { OnOk result (self.new ≡ self.old ++ arrow name.now source.0 target.0 selfmade ∷ []) }
        ensures number { IfOk result (λ a. a.0 ≡ letter_count self.old) }
        ensures fits { OnOk result (map_fault self.old name.now source.0 target.0 selfmade ≡ None) }
        ensures fault { IfErr result (Explains (map_fault self.old name.now source.0 target.0 selfmade)) }
        ensures unchanged { OnErr result (self.new ≡ self.old) }
    {
        self.check_map(name, source, target, selfmade)?;
        Ok(self.declare_map(name, source, target, selfmade)?)
    }

    /// Declares a map whose declaration has no fault, as `add_map` does. It fails only where memory is short, and then the
    /// quiver is unchanged.
    pub fn declare_map(
        &mut self,
        name: &str,
        source: Object,
        target: Object,
        selfmade: bool,
    ) -> Result<Letter, AllocError>
        requires source_in { source.0 < object_count self.old }
        requires target_in { target.0 < object_count self.old }
        requires sound { map_fault self.old name.now source.0 target.0 selfmade ≡ None }
        ensures declared { OnOk result (self.new ≡ self.old ++ arrow name.now source.0 target.0 selfmade ∷ []) }
        ensures number { IfOk result (λ a. a.0 ≡ letter_count self.old) }
        ensures unchanged { OnErr result (self.new ≡ self.old) }
    {
        let letter = self.next_letter();
        let declaration = self.names.len();
        // As the room is taken first, nothing fails once the name is in.
        self.letters.reserve(2)?;
        add_name(&mut self.names, name, Named::Map(letter))?;
        let ends = Sig { source, target };
        if selfmade {
            self.letters.push(LetterEntry {
                ends,
                star: letter,
                declaration,
            })?;
        } else {
            self.letters.push(LetterEntry {
                ends,
                star: Letter(letter.0 + 1),
                declaration,
            })?;
            self.letters.push(LetterEntry {
                ends: Sig {
                    source: target,
                    target: source,
                },
                star: letter,
                declaration,
            })?;
        }
        Ok(letter)
    }

    // The fault of an object of this name.
    fn check_object(&self, name: &str) -> Result<(), QuiverFault>
        ensures ok { OnOk result (object_fault self.now name.now ≡ None) }
        ensures err { IfErr result (λ fault. object_fault self.now name.now ≡ Some fault) }
    {
        if self.find(name).is_some() {
            return Err(QuiverFault::DoubleName);
        }
        if self.objects() >= OBJECT_LIMIT {
            return Err(QuiverFault::TooMany {
                limit: OBJECT_LIMIT,
            });
        }
        Ok(())
    }

    // The fault of a map of this name and these ends.
    fn check_map(
        &self,
        name: &str,
        source: Object,
        target: Object,
        selfmade: bool,
    ) -> Result<(), QuiverFault>
        ensures ok { OnOk result (map_fault self.now name.now source.0 target.0 selfmade ≡ None) }
        ensures err { IfErr result (λ fault. map_fault self.now name.now source.0 target.0 selfmade ≡ Some fault) }
    {
        if self.find(name).is_some() {
            return Err(QuiverFault::DoubleName);
        }
        if self.maps() >= MAP_LIMIT {
            return Err(QuiverFault::TooMany { limit: MAP_LIMIT });
        }
        if selfmade && source != target {
            return Err(QuiverFault::NotSquare);
        }
        Ok(())
    }

    /// What the name stands for, or `None` where it isn't declared.
    pub fn find(&self, name: &str) -> Option<Named>
        ensures exact { result ≡ named_in self.now name.now }
        ensures named { IfSome result (IsNamed self.now name.now) }
    {
        self.names.get(name).copied()
    }

    /// The number of objects.
    pub fn objects(&self) -> u32
        ensures count { result ≡ object_count self.now }
        ensures declared { IsDeclared self.now }
        ensures quiver { ObjectsFirst self.now → IsQuiver (quiver_of self.now) }
    {
        self.objects.len() as u32
    }

    // The number of maps.
    fn maps(&self) -> u32
        ensures { result ≡ map_count self.now }
    {
        (self.names.len() - self.objects.len()) as u32
    }

    /// The number of letters.
    pub fn letters(&self) -> u32
        ensures count { result ≡ letter_count self.now }
        ensures few { result ≤ letter_limit }
    {
        self.letters.len() as u32
    }

    // The next free object.
    fn next_object(&self) -> Object
        ensures { result.0 ≡ object_count self.now }
    {
        Object(self.objects() as u16)
    }

    // The next free letter.
    fn next_letter(&self) -> Letter
        ensures number { result.0 ≡ letter_count self.now }
        ensures few { result.0 ≤ letter_limit }
    {
        Letter(self.letters() as u16)
    }

    // The entry of the object.
    fn object_at(&self, object: Object) -> &ObjectEntry
        requires { object.0 < object_count self.now }
        ensures entry { object_entry result.now ≡ object_at self.now object.0 }
    {
        &self.objects[usize::from(object.0)]
    }

    // The entry of the letter.
    fn letter_at(&self, letter: Letter) -> &LetterEntry
        requires { letter.0 < letter_count self.now }
        ensures entry { letter_entry result.now ≡ letter_at self.now letter.0 }
        ensures declared { IsDeclared self.now }
    {
        &self.letters[usize::from(letter.0)]
    }

    // The name at a place of the declarations.
    fn name_at(&self, place: usize) -> &str
        ensures { result.now ≡ name_at self.now place }
    {
        match self.names.get_index(place) {
            Some((name, _)) => name.as_str(),
            None => "",
        }
    }

    /// The name of the object.
    pub fn object_name(&self, object: Object) -> &str
        requires { object.0 < object_count self.now }
        ensures { result.now ≡ object_name self.now object.0 }
    {
        self.name_at(self.object_at(object).declaration)
    }

    /// The name of the map that the letter or its adjoint is declared as; that of an identity is its object's.
    pub fn letter_name(&self, letter: Letter) -> &str
        requires { letter.0 < letter_count self.now }
        ensures { result.now ≡ letter_name self.now letter.0 }
    {
        self.name_at(self.letter_at(letter).declaration)
    }

    /// The adjoint of the letter. An identity is its own, and so is a map that is declared so.
    pub fn star_of(&self, letter: Letter) -> Letter
        requires { letter.0 < letter_count self.now }
        ensures star { result.0 ≡ star (quiver_of self.now) letter.0 }
        ensures in_range { result.0 < letter_count self.now }
    {
        self.letter_at(letter).star
    }

    /// The identity of the object, whose number is the object's where all objects were declared before the first map.
    pub fn identity_of(&self, object: Object) -> Letter
        requires { object.0 < object_count self.now }
        ensures identity { result.0 ≡ identity_in self.now object.0 }
        ensures in_range { result.0 < letter_count self.now }
        ensures objects_first { ObjectsFirst self.now → result.0 ≡ object.0 }
    {
        self.object_at(object).identity
    }

    /// The source and the target of the letter.
    pub fn signature_of(&self, letter: Letter) -> Sig
        requires { letter.0 < letter_count self.now }
        ensures source { result.source.0 ≡ source (quiver_of self.now) letter.0 }
        ensures target { result.target.0 ≡ target (quiver_of self.now) letter.0 }
        ensures source_in_range { result.source.0 < object_count self.now }
        ensures target_in_range { result.target.0 < object_count self.now }
    {
        self.letter_at(letter).ends
    }
}

// Adds a name with what it stands for. Where memory is short, the names are unchanged.
fn add_name(names: &mut IndexMap<String, Named>, name: &str, named: Named) -> Result<(), AllocError>
    ensures added { OnOk result (IsNameMore names.old.entries names.new.entries name.now named) }
    ensures unchanged { OnErr result (names.new.entries ≡ names.old.entries) }
{
    let key = String::from_str(*names.allocator(), name)?;
    names.insert(key, named)?;
    Ok(())
}
