//! The words after the program's name, read by clap.
ghost use Rattle.std.specs.Prelude.{◌≡◌, IfOk, IsErrOf, List, MatchResult, Some, codes, map, string_bytes, ℕ};
ghost use Rattle.clap.specs.Words.{subcommand_of, subcommand_rows_of, kind_of, rows_of, found_of, first_of};
ghost use Rattle.command_shape.specs.CommandSet.{command_set, IsTaken};
ghost use Rattle.command_shape.specs.Calls.{number_of, flag_of, GivesPair, GivesCall, MatchesGive, Names, IsInRange};
ghost use Rattle.command_shape.specs.Present.{HasText, HasNumber, HasFlag, HasProve, HasRefute, HasBench, HasPair, HasCommand, IsEvidenceName, MatchesHave};

use crate::call::{BenchCall, Call, PairCall, ProveCall, RefuteCall};
use crate::evidence::evidence_command;
use crate::set::command_set;
use clap::error::ErrorKind;
use clap::{ArgMatches, Error};
use lists::Text;
use std::alloc::{AllocError, Global};

fn text_of(alloc: Global, matches: &ArgMatches, id: &str) -> Result<Text, AllocError>
    requires { HasText id.now (rows_of (found_of matches.now)) }
    ensures { IfOk result (λ text. first_of id.now (rows_of (found_of matches.now)) ≡ Some text) }
{
    let text = matches.get_str(id).unwrap();
    Ok(Text::from_string(String::from_str(alloc, text)?))
}

fn number_of(matches: &ArgMatches, id: &str) -> u64
    requires { HasNumber id.now 0 18446744073709551615 (rows_of (found_of matches.now)) }
    ensures { number_of id.now (rows_of (found_of matches.now)) ≡ Some result }
{
    matches.get_one::<u64>(id).unwrap()
}

// A number that fits in 32 bits.
fn small_number_of(matches: &ArgMatches, id: &str) -> u32
    requires { HasNumber id.now 0 4294967295 (rows_of (found_of matches.now)) }
    ensures { number_of id.now (rows_of (found_of matches.now)) ≡ Some result }
{
    number_of(matches, id) as u32
}

fn flag_of(matches: &ArgMatches, id: &str) -> bool
    requires { HasFlag id.now (rows_of (found_of matches.now)) }
    ensures { flag_of id.now (rows_of (found_of matches.now)) ≡ Some result }
{
    matches.get_flag(id)
}

fn prove_of(alloc: Global, matches: &ArgMatches) -> Result<Call, AllocError>
    requires { HasProve (rows_of (found_of matches.now)) }
    ensures { IfOk result (λ call. GivesCall (codes "prove") (rows_of (found_of matches.now)) call) }
{
    Ok(Call::Prove(ProveCall {
        file: text_of(alloc, matches, "file")?,
        pairs: small_number_of(matches, "pairs"),
        steps: small_number_of(matches, "steps"),
        workers: small_number_of(matches, "workers"),
        seed: number_of(matches, "seed"),
        format: small_number_of(matches, "format"),
        models: !flag_of(matches, "no-models"),
    }))
}

fn refute_of(alloc: Global, matches: &ArgMatches) -> Result<Call, AllocError>
    requires { HasRefute (rows_of (found_of matches.now)) }
    ensures { IfOk result (λ call. GivesCall (codes "refute") (rows_of (found_of matches.now)) call) }
{
    Ok(Call::Refute(RefuteCall {
        file: text_of(alloc, matches, "file")?,
        workers: small_number_of(matches, "workers"),
        seed: number_of(matches, "seed"),
    }))
}

fn bench_of(matches: &ArgMatches) -> Call
    requires { HasBench (rows_of (found_of matches.now)) }
    ensures { GivesCall (codes "bench") (rows_of (found_of matches.now)) result }
{
    Call::Bench(BenchCall {
        size: small_number_of(matches, "size"),
        workers: small_number_of(matches, "workers"),
    })
}

fn pair_of(alloc: Global, matches: &ArgMatches) -> Result<PairCall, AllocError>
    requires { HasPair (rows_of (found_of matches.now)) }
    ensures { IfOk result (λ call. GivesPair (rows_of (found_of matches.now)) call) }
{
    Ok(PairCall {
        statement: text_of(alloc, matches, "statement")?,
        evidence: text_of(alloc, matches, "evidence")?,
    })
}

fn evidence_of(alloc: Global, name: &str, matches: &ArgMatches) -> Result<Call, AllocError>
    requires named { IsEvidenceName name.now }
    requires files { HasPair (rows_of (found_of matches.now)) }
    ensures { IfOk result (λ call. GivesCall name.now (rows_of (found_of matches.now)) call) }
{
    let command = evidence_command(name);
    Ok(Call::Evidence(command, pair_of(alloc, matches)?))
}

fn call_of(alloc: Global, name: &str, matches: &ArgMatches) -> Result<Call, AllocError>
    requires { HasCommand name.now (rows_of (found_of matches.now)) }
    ensures { IfOk result (λ call. GivesCall name.now (rows_of (found_of matches.now)) call) }
{
    match name {
        "prove" => prove_of(alloc, matches),
        "refute" => refute_of(alloc, matches),
        "bench" => Ok(bench_of(matches)),
        _ => evidence_of(alloc, name, matches),
    }
}

fn command_of(alloc: Global, matches: &ArgMatches) -> Result<Call, AllocError>
    requires { MatchesHave (subcommand_rows_of matches.now) }
    ensures { IfOk result (λ call. MatchesGive (subcommand_rows_of matches.now) call) }
{
    let (name, inner) = matches.subcommand().unwrap();
    call_of(alloc, name, inner)
}

/// Why the words gave no command.
#[derive(Clone, Copy)]
pub enum Refusal {
    /// The command set does not take them.
    Words,
    /// Memory is short.
    Memory,
}

fn refusal_of(error: &Error) -> Refusal
    ensures { kind_of error.now ≡ ErrorKind.OutOfMemory → result ≡ Refusal.Memory }
{
    match error.kind() {
        ErrorKind::OutOfMemory => Refusal::Memory,
        _ => Refusal::Words,
    }
}

// The matches of the words after the program's name by clap.
fn matches_of<'a>(alloc: Global, words: &'a [String]) -> Result<ArgMatches<'a>, Refusal>
    ensures taken { IfOk result (λ m. IsTaken (map string_bytes words.entry.now)) }
    ensures rows { IfOk result (λ m. subcommand_rows_of m ≡ subcommand_of command_set (map string_bytes words.entry.now)) }
    ensures refused { IsErrOf result Refusal.Words → ¬ IsTaken (map string_bytes words.entry.now) }
{
    let set = match command_set(alloc) {
        Ok(set) => set,
        Err(_) => return Err(Refusal::Memory),
    };
    match set.try_get_matches_from(words) {
        Ok(matches) => Ok(matches),
        Err(error) => Err(refusal_of(&error)),
    }
}

/// The command that the words name: the one of clap's matches. That of an accepted list is the one that
/// it names.
pub fn read_words(alloc: Global, words: &[String]) -> Result<Call, Refusal>
    ensures taken { IfOk result (λ call. IsTaken (map string_bytes words.now)) }
    ensures matches { IfOk result (λ call. MatchesGive (subcommand_of command_set (map string_bytes words.now)) call) }
    ensures ranges { IfOk result IsInRange }
    ensures accepted { (call : Call) → Names (map string_bytes words.now) call
        → MatchResult result (λ read. read ≡ call) (λ refusal. refusal ≡ Refusal.Memory) }
    ensures refused { IsErrOf result Refusal.Words → ¬ IsTaken (map string_bytes words.now) }
{
    let matches = match matches_of(alloc, words) {
        Ok(matches) => matches,
        Err(refusal) => return Err(refusal),
    };
    match command_of(alloc, &matches) {
        Ok(call) => Ok(call),
        Err(_) => Err(Refusal::Memory),
    }
}

/// An accepted list is taken, and clap's matches of it give the command that it names. So an accepted list
/// names one command only.
pub fn accepted_lists_are_taken()
    ensures taken { (words : List (List ℕ)) (call : Call) → Names words call → IsTaken words × MatchesGive (subcommand_of command_set words) call }
    ensures single { (words : List (List ℕ)) (one : Call) (other : Call) → Names words one → Names words other → one ≡ other }
{}

/// A list of words that the command set takes names a command.
pub fn each_taken_list_names_a_call()
    ensures { (words : List (List ℕ)) → IsTaken words → (call : Call) × MatchesGive (subcommand_of command_set words) call }
{}
