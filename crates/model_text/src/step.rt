//! What is made of the lines of a model.

ghost use Rattle.std.specs.Prelude.{◌≡◌, IfOk, IsTrue};
ghost use Rattle.std.specs.List.{list_any};
ghost use Rattle.std.specs.Str.{bytes_eq};
ghost use Rattle.lists.specs.Stop.{Gives};
ghost use Rattle.block_text.specs.Tokens.{tokens_of};
ghost use Rattle.matrix_models.specs.Matrix.{IsModulus};
ghost use Rattle.block_lines.specs.SectionSteps.{named_grown};
ghost use Rattle.model_text.specs.ModelBlocks.{name_of, is_entry};
ghost use Rattle.model_text.specs.Reading.{modulus_of, entry_value, entry_steps, modulus_steps, model_steps, HasModulus, IsSound};
ghost use Rattle.model_text.specs.Views.{tokens_in};

use crate::entry::{EntryTokens, entry_tokens, is_modulus};
use crate::finish::model_of;
use crate::place::{Behind, Entries};
use crate::value::{entry_value, name_text};
use block_lines::LinePlace;
use block_text::{BlockKind, Flaw, claim_of, is, is_pair, number_within, two_tokens};
use lists::{Listing, Stop, Text};
use matrix_models::{MODULUS_LIMIT, Model};
use quiver::Quiver;
use std::alloc::{AllocError, Global};

/// Models over the objects and the maps of a quiver.
#[derive(Clone, Copy)]
pub struct Models<'q> {
    pub quiver: &'q Quiver,
}

fn modulus_of(line: &[u8]) -> Result<u32, Flaw>
    ensures exact { result ≡ modulus_of (tokens_of line.now) }
    ensures in_range { IfOk result IsModulus }
{
    let Some((word, digits)) = two_tokens(line) else {
        return Err(Flaw::BadLine);
    };
    if !is("modulus", word) || !is_modulus(digits) {
        return Err(Flaw::BadLine);
    }
    match number_within(u128::from(MODULUS_LIMIT), digits) {
        Some(modulus) => Ok(modulus as u32),
        None => Err(Flaw::NumberTooLarge),
    }
}

fn is_known(names: &[Text], name: &str) -> bool
    ensures { result ≡ list_any (bytes_eq name.now) names.now }
{
    names.iter().any(|known| known.as_str() == name)
}

// One more line of a model.
fn grown(
    alloc: Global,
    quiver: &Quiver,
    modulus: u32,
    entries: Entries,
    entry: &EntryTokens<'_>,
) -> Result<Entries, Stop<Flaw>>
    requires modulus { IsModulus modulus }
    requires entry { IsTrue (is_entry (tokens_in entry.now)) }
    ensures { Gives (λ e. e) result (named_grown name_of (entry_value quiver.now modulus) entries (tokens_in entry.now)) }
{
    let (mut names, mut values) = entries;
    let name = name_text(entry.name());
    if is_known(names.as_slice(), name) {
        return Err(Stop::Fault(Flaw::BadLine));
    }
    let value = entry_value(alloc, quiver, modulus, entry)?;
    names.push(Text::from_str(alloc, name)?)?;
    values.push(value)?;
    Ok((names, values))
}

// A line `side` or `map`.
fn inside(
    alloc: Global,
    quiver: &Quiver,
    modulus: u32,
    entries: Entries,
    line: &[u8],
) -> Result<Entries, Stop<Flaw>>
    requires { IsModulus modulus }
    ensures { Gives (λ e. e) result ((entry_steps quiver.now modulus).next entries (tokens_of line.now)) }
{
    let Some(entry) = entry_tokens(line) else {
        return Err(Stop::Fault(Flaw::BadLine));
    };
    grown(alloc, quiver, modulus, entries, &entry)
}

// A line after the claim.
fn behind(alloc: Global, quiver: &Quiver, place: Behind, line: &[u8]) -> Result<Behind, Stop<Flaw>>
    requires { HasModulus place }
    ensures exact { Gives (λ p. p) result ((modulus_steps quiver.now).next place (tokens_of line.now)) }
    ensures modulus { IfOk result HasModulus }
{
    match place {
        LinePlace::Before => {
            let value = modulus_of(line)?;
            let rest = (Listing::new(alloc), Listing::new(alloc));
            Ok(LinePlace::Behind { value, rest })
        }
        LinePlace::Behind { value, rest } => {
            let rest = inside(alloc, quiver, value, rest, line)?;
            Ok(LinePlace::Behind { value, rest })
        }
    }
}

impl<'q> BlockKind for Models<'q> {
    type Begun = LinePlace<u32, Behind>;

    type Value = Model;

    ghost steps = { λ kind. model_steps kind.quiver.now };

    ghost is_sound = { λ kind. IsSound };

    fn others(&self) -> &'static [&'static str] {
        &["certificate", "basis"]
    }

    fn begin(&self, _alloc: Global, line: &[u8]) -> Option<Self::Begun> {
        is_pair("model", "1", line).then_some(LinePlace::Before)
    }

    fn next(
        &self,
        alloc: Global,
        place: Self::Begun,
        line: &[u8],
    ) -> Result<Self::Begun, Stop<Flaw>> {
        match place {
            LinePlace::Before => {
                let value = claim_of(line)?;
                let rest = LinePlace::Before;
                Ok(LinePlace::Behind { value, rest })
            }
            LinePlace::Behind { value, rest } => {
                let rest = behind(alloc, self.quiver, rest, line)?;
                Ok(LinePlace::Behind { value, rest })
            }
        }
    }

    fn finish(&self, alloc: Global, place: Self::Begun) -> Result<Option<Model>, AllocError> {
        let LinePlace::Behind { value: claim, rest } = place else {
            return Ok(None);
        };
        let LinePlace::Behind { value, rest } = rest else {
            return Ok(None);
        };
        let model = model_of(alloc, self.quiver, claim, value, rest.1.as_slice())?;
        Ok(Some(model))
    }
}
