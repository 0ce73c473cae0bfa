//! The top call.
ghost use Rattle.std.specs.Prelude.{◌≡◌, IfOk, IfErr, IsTrue};
ghost use Rattle.std.specs.Io.KnownBytes.{Appends};
ghost use Rattle.flow_io.specs.Causes.{Rose};
ghost use Rattle.command_shape.specs.Calls.{IsInRange};
ghost use Rattle.command_runs.specs.Answers.{Answers};
ghost use Rattle.command_runs.specs.CallFiles.{files_of};
ghost use Rattle.command_runs.specs.Ends.{MayEnd};
ghost use Rattle.command_runs.specs.Files.{RoseAt, WereLoaded, AfterFiles};
ghost use Rattle.command_runs.specs.Put.{IsPut};
ghost use Rattle.command_shape.specs.Stop.{StopsBy, EndsAs};
ghost use Rattle.command_runs.specs.Run.{IsReported, IsSinkFailure, IsCutShort, IsUsage, TellsOtherWords, IsNotLoaded, TellsMissing};
ghost use Rattle.command_runs.specs.Seen.{seen};
ghost use Rattle.command_runs.specs.Run.{TellsTooLong, IsAnswered, IsComplete};
ghost use Rattle.command_runs.specs.Headline.{MeansAsSaid};
ghost use Rattle.command_runs.specs.Promises.{PutsWhatIsMeant};
ghost use Rattle.statement_meaning.specs.Meanings.{SaysEquations};

use crate::answers::answer;
use crate::call::call_files;
use crate::files::load_files;
use cancel_rules::cancellation_sound;
use category_laws::Preadditive;
use command_shape::status::{OUT_OF_MEMORY, SINK_FAILED};
use command_shape::{Call, Ending, Refusal, read_words, usage_text};
use flow_io::{Shelf, Sink, put_all};
use in_order_parallel::Gate;
use lists::{Listing, Stop};
use representations::sound;
use statement_meaning::says_equations;
use std::alloc::{AllocError, Global};
use std::thread::Threads;

// The contents of the call's files, or how the run ends at the first that can't be loaded.
fn load_call<L: Shelf>(
    alloc: Global,
    call: &Call,
    shelf: &mut L,
) -> Result<Listing<Listing<u8>>, Stop<Ending>>
    ensures loaded { IfOk result (WereLoaded (L.file shelf.old) (files_of call.now)) }
    ensures stopped { IfErr result (StopsBy (AfterFiles (L.file shelf.old) (RoseAt (L.faults shelf.old) (L.faults shelf.new)) (files_of call.now) (λ _ _. ⊥))) }
{
    let files = call_files(alloc, call)?;
    load_files(alloc, shelf, files.as_slice())
}

// The answer of the call, from its files.
fn answer_call<R: Threads + Sync, L: Shelf, G: Gate + Sync>(
    rt: &R,
    alloc: Global,
    call: &Call,
    shelf: &mut L,
    gate: &G,
) -> Result<Ending, Stop<Ending>>
    requires { IsInRange call.now }
    ensures { EndsAs (AfterFiles (L.file shelf.old) (RoseAt (L.faults shelf.old) (L.faults shelf.new)) (files_of call.now) (Answers call.now)) result }
{
    let contents = load_call(alloc, call, shelf)?;
    answer(rt, alloc, call, contents.as_slice(), gate)
}

// The answer of the call that the words name, from its files.
fn answer_words<R: Threads + Sync, L: Shelf, G: Gate + Sync>(
    rt: &R,
    alloc: Global,
    words: &[String],
    shelf: &mut L,
    gate: &G,
) -> Result<Ending, Stop<Ending>>
    ensures { EndsAs (MayEnd words.now (L.file shelf.old) (RoseAt (L.faults shelf.old) (L.faults shelf.new))) result }
{
    match read_words(alloc, words) {
        Ok(call) => answer_call(rt, alloc, &call, shelf, gate),
        Err(Refusal::Words) => Ok(Ending::usage(usage_text(alloc)?)?),
        Err(Refusal::Memory) => Err(Stop::Memory(AllocError)),
    }
}

// How a run ends, before anything is put.
fn ending_of<R: Threads + Sync, L: Shelf, G: Gate + Sync>(
    rt: &R,
    alloc: Global,
    words: &[String],
    shelf: &mut L,
    gate: &G,
) -> Result<Ending, AllocError>
    ensures { IfOk result (MayEnd words.now (L.file shelf.old) (RoseAt (L.faults shelf.old) (L.faults shelf.new))) }
{
    match answer_words(rt, alloc, words, shelf, gate) {
        Ok(ending) => Ok(ending),
        Err(Stop::Fault(ending)) => Ok(ending),
        Err(Stop::Memory(failed)) => Err(failed),
    }
}

// Puts the report and finishes.
fn put_ending<K: Sink>(sink: &mut K, ending: &Ending) -> u8
    ensures { IsPut (λ bytes. Appends (K.written sink.old) (K.written sink.new) bytes) (IsTrue (K.is_finished sink.new))
        (Rose (K.faults sink.old) (K.faults sink.new)) ending.now result }
{
    match put_all(sink, ending.report()) {
        Ok(()) => {}
        Err(_) => return SINK_FAILED,
    }
    match sink.finish() {
        Ok(()) => ending.status(),
        Err(_) => SINK_FAILED,
    }
}

/// Runs a call: loads its files in their order, and puts the report of its answer.
///
/// The clauses are about what the devices tell. With a shelf that tells what each file holds, and a sink that tells what was
/// put, each of them says something. The machine's files and its standard output tell nothing, and over them each clause on content
/// is empty; but this is one body for all devices, which can't see which of them it has, and so it does the same over
/// both. What the machine's devices read and write is only tested.
pub fn run<R: Threads + Sync, C: Preadditive, L: Shelf, K: Sink, G: Gate + Sync>(
    rt: &R,
    alloc: Global,
    category: &C,
    words: &[String],
    shelf: &mut L,
    sink: &mut K,
    gate: &G,
) -> u8
    ensures reported { IsReported words.now (seen L.file L.faults K.written K.is_finished K.faults shelf.old shelf.new sink.old sink.new) result }
    ensures sink_failed { IsSinkFailure (seen L.file L.faults K.written K.is_finished K.faults shelf.old shelf.new sink.old sink.new) result }
    ensures cut_short { IsCutShort words.now (seen L.file L.faults K.written K.is_finished K.faults shelf.old shelf.new sink.old sink.new) result }
    ensures nothing_put { result ≡ 6 → sink.new ≡ sink.old }
    ensures usage { IsUsage words.now result }
    ensures other_words { TellsOtherWords words.now result }
    ensures not_loaded { IsNotLoaded words.now (seen L.file L.faults K.written K.is_finished K.faults shelf.old shelf.new sink.old sink.new) result }
    ensures missing { TellsMissing words.now (seen L.file L.faults K.written K.is_finished K.faults shelf.old shelf.new sink.old sink.new) result }
    ensures past_limit { TellsTooLong words.now (seen L.file L.faults K.written K.is_finished K.faults shelf.old shelf.new sink.old sink.new) result }
    ensures answered { IsAnswered words.now (seen L.file L.faults K.written K.is_finished K.faults shelf.old shelf.new sink.old sink.new) result }
    ensures complete { IsComplete words.now (seen L.file L.faults K.written K.is_finished K.faults shelf.old shelf.new sink.old sink.new) result }
    ensures meaning { MeansAsSaid (C.structure category.now) words.now
        (seen L.file L.faults K.written K.is_finished K.faults shelf.old shelf.new sink.old sink.new) result }
    ensures equations { SaysEquations (C.structure category.now) }
    ensures promises { PutsWhatIsMeant (C.structure category.now) words.now
        (seen L.file L.faults K.written K.is_finished K.faults shelf.old shelf.new sink.old sink.new) result }
{
    sound(category);
    cancellation_sound(category);
    says_equations(category);
    match ending_of(rt, alloc, words, shelf, gate) {
        Ok(ending) => put_ending(sink, &ending),
        Err(AllocError) => OUT_OF_MEMORY,
    }
}
