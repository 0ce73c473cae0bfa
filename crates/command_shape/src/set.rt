//! The commands as clap gets them, as `specs/CommandSet.antt` says.
ghost use Rattle.std.specs.Prelude.{◌≡◌, IfOk, false};
ghost use Rattle.std.specs.List.{fold};
ghost use Rattle.clap.specs.Words.{App, Rule, app_of, rule_of, with_rule, with_subcommand};
ghost use Rattle.clap.specs.declared.builder.command.Command.TheViews.{out-Command as fields_of};
ghost use Rattle.command_shape.specs.CommandSet.{command_set, bare_command, prove_command, refute_command, bench_command};
ghost use Rattle.command_shape.specs.CommandSet.{name_of, pair_command, with_evidence, required_word, required_number, number_option, workers_option, seed_option};
ghost use Rattle.command_shape.specs.CommandSet.{flag_option};

use crate::evidence::{EvidenceCommand, LAST_COMMANDS};
use crate::limits::{
    DEFAULT_FORMAT_WORD, DEFAULT_PAIRS_WORD, DEFAULT_SEED_WORD, DEFAULT_STEPS_WORD,
    DEFAULT_WORKERS_WORD, FORMAT_LIMIT, PAIR_LIMIT, SIZE_LIMIT, STEP_LIMIT,
};
use clap::builder::ValueParser;
use clap::{Arg, ArgAction, Command};
use in_order_parallel::WORKER_LIMIT;
use std::alloc::{AllocError, Global};

fn required_word<'a>(alloc: Global, id: &'a str) -> Arg<'a>
    ensures rule { rule_of result ≡ required_word id.entry.now }
    ensures local { result.global ≡ false }
{
    Arg::new(alloc, id).required(true)
}

fn required_number<'a>(alloc: Global, id: &'a str, least: u64, most: u64) -> Arg<'a>
    ensures rule { rule_of result ≡ required_number id.entry.now least most }
    ensures local { result.global ≡ false }
{
    Arg::new(alloc, id)
        .required(true)
        .value_parser(ValueParser::unsigned(least, most))
}

fn number_option<'a>(alloc: Global, id: &'a str, least: u64, most: u64, default: &'a str) -> Arg<'a>
    ensures rule { rule_of result ≡ number_option id.entry.now least most default.entry.now }
    ensures local { result.global ≡ false }
{
    Arg::new(alloc, id)
        .long(id)
        .action(ArgAction::Set)
        .value_parser(ValueParser::unsigned(least, most))
        .default_value(default)
}

fn workers_option<'a>(alloc: Global) -> Arg<'a>
    ensures rule { rule_of result ≡ workers_option }
    ensures local { result.global ≡ false }
{
    number_option(
        alloc,
        "workers",
        1,
        u64::from(WORKER_LIMIT),
        DEFAULT_WORKERS_WORD,
    )
}

fn seed_option<'a>(alloc: Global) -> Arg<'a>
    ensures rule { rule_of result ≡ seed_option }
    ensures local { result.global ≡ false }
{
    number_option(alloc, "seed", 0, u64::MAX, DEFAULT_SEED_WORD)
}

fn flag_option<'a>(alloc: Global, id: &'a str) -> Arg<'a>
    ensures rule { rule_of result ≡ flag_option id.entry.now }
    ensures local { result.global ≡ false }
{
    Arg::new(alloc, id).long(id).action(ArgAction::SetTrue)
}

// The command with one more argument, where there was memory for the command.
fn with_arg<'a>(
    command: Result<Command<'a>, AllocError>,
    arg: Arg<'a>,
) -> Result<Command<'a>, AllocError>
    requires local { IfOk command (λ c. (fields_of c).has_globals ≡ false) }
    requires arg_local { arg.global ≡ false }
    ensures app { (a : App) (rule : Rule) → IfOk command.entry (λ c. app_of c ≡ a) → rule_of arg.entry ≡ rule
        → IfOk result (λ c. app_of c ≡ with_rule a rule) }
    ensures local { IfOk result (λ c. (fields_of c).has_globals ≡ false) }
{
    match command {
        Ok(command) => command.arg(arg),
        Err(failed) => {
            drop(arg);
            Err(failed)
        }
    }
}

fn prove_command<'a>(alloc: Global) -> Result<Command<'a>, AllocError>
    ensures app { IfOk result (λ c. app_of c ≡ prove_command) }
    ensures local { IfOk result (λ c. (fields_of c).has_globals ≡ false) }
{
    let command = Ok(Command::new(alloc, "prove"));
    let command = with_arg(command, required_word(alloc, "file"));
    let pairs = number_option(alloc, "pairs", 1, PAIR_LIMIT, DEFAULT_PAIRS_WORD);
    let command = with_arg(command, pairs);
    let steps = number_option(alloc, "steps", 1, STEP_LIMIT, DEFAULT_STEPS_WORD);
    let command = with_arg(command, steps);
    let command = with_arg(command, workers_option(alloc));
    let command = with_arg(command, seed_option(alloc));
    let format = number_option(alloc, "format", 1, FORMAT_LIMIT, DEFAULT_FORMAT_WORD);
    let command = with_arg(command, format);
    with_arg(command, flag_option(alloc, "no-models"))
}

fn refute_command<'a>(alloc: Global) -> Result<Command<'a>, AllocError>
    ensures app { IfOk result (λ c. app_of c ≡ refute_command) }
    ensures local { IfOk result (λ c. (fields_of c).has_globals ≡ false) }
{
    let command = Ok(Command::new(alloc, "refute"));
    let command = with_arg(command, required_word(alloc, "file"));
    let command = with_arg(command, workers_option(alloc));
    with_arg(command, seed_option(alloc))
}

fn bench_command<'a>(alloc: Global) -> Result<Command<'a>, AllocError>
    ensures app { IfOk result (λ c. app_of c ≡ bench_command) }
    ensures local { IfOk result (λ c. (fields_of c).has_globals ≡ false) }
{
    let command = Ok(Command::new(alloc, "bench"));
    let command = with_arg(command, required_number(alloc, "size", 1, SIZE_LIMIT));
    with_arg(command, workers_option(alloc))
}

fn pair_command<'a>(alloc: Global, command: EvidenceCommand) -> Result<Command<'a>, AllocError>
    ensures app { IfOk result (λ c. app_of c ≡ pair_command (name_of command)) }
    ensures local { IfOk result (λ c. (fields_of c).has_globals ≡ false) }
{
    let command = Ok(Command::new(alloc, command.name()));
    let command = with_arg(command, required_word(alloc, "statement"));
    with_arg(command, required_word(alloc, "evidence"))
}

fn bare_command<'a>(alloc: Global) -> Command<'a>
    ensures app { app_of result ≡ bare_command }
    ensures local { (fields_of result).has_globals ≡ false }
{
    Command::new(alloc, "opprove")
        .no_binary_name(true)
        .disable_help_flag(true)
        .disable_help_subcommand(true)
        .subcommand_required(true)
}

// The command with the other one below it, where there was memory for both.
fn with_command<'a>(
    command: Result<Command<'a>, AllocError>,
    below: Result<Command<'a>, AllocError>,
) -> Result<Command<'a>, AllocError>
    requires local { IfOk command (λ c. (fields_of c).has_globals ≡ false) }
    requires below_local { IfOk below (λ b. (fields_of b).has_globals ≡ false) }
    ensures app { (a : App) (b : App) → IfOk command.entry (λ c. app_of c ≡ a) → IfOk below.entry (λ c. app_of c ≡ b)
        → IfOk result (λ c. app_of c ≡ with_subcommand a b.top) }
    ensures local { IfOk result (λ c. (fields_of c).has_globals ≡ false) }
{
    match command {
        Ok(command) => with_other(command, below),
        Err(failed) => {
            drop(below);
            Err(failed)
        }
    }
}

fn with_other<'a>(
    command: Command<'a>,
    below: Result<Command<'a>, AllocError>,
) -> Result<Command<'a>, AllocError>
    requires local { (fields_of command).has_globals ≡ false }
    requires below_local { IfOk below (λ b. (fields_of b).has_globals ≡ false) }
    ensures app { (b : App) → IfOk below.entry (λ c. app_of c ≡ b) → IfOk result (λ c. app_of c ≡ with_subcommand (app_of command.entry) b.top) }
    ensures local { IfOk result (λ c. (fields_of c).has_globals ≡ false) }
{
    match below {
        Ok(below) => command.subcommand(below),
        Err(failed) => {
            drop(command);
            Err(failed)
        }
    }
}

// The command with one of evidence below it, where there was memory for both.
fn with_pair<'a>(
    alloc: Global,
    command: Result<Command<'a>, AllocError>,
    below: &EvidenceCommand,
) -> Result<Command<'a>, AllocError>
    requires { IfOk command (λ c. (fields_of c).has_globals ≡ false) }
    ensures app { (a : App) → IfOk command.entry (λ c. app_of c ≡ a) → IfOk result (λ c. app_of c ≡ with_evidence a below.now) }
    ensures local { IfOk result (λ c. (fields_of c).has_globals ≡ false) }
{
    with_command(command, pair_command(alloc, *below))
}

// The command with these of evidence below it, where there was memory for all.
fn with_evidence<'a>(
    alloc: Global,
    command: Result<Command<'a>, AllocError>,
    below: &[EvidenceCommand],
) -> Result<Command<'a>, AllocError>
    requires { IfOk command (λ c. (fields_of c).has_globals ≡ false) }
    ensures { (a : App) → IfOk command.entry (λ c. app_of c ≡ a) → IfOk result (λ c. app_of c ≡ fold with_evidence a below.now) }
{
    let mut set = command;
    for other in below {
        set = with_pair(alloc, set, other);
    }
    set
}

/// The commands as `specs/CommandSet.antt` says.
pub fn command_set<'a>(alloc: Global) -> Result<Command<'a>, AllocError>
    ensures { IfOk result (λ c. app_of c ≡ command_set) }
{
    let set = with_command(Ok(bare_command(alloc)), prove_command(alloc));
    let set = with_command(set, pair_command(alloc, EvidenceCommand::Check));
    let set = with_command(set, refute_command(alloc));
    let set = with_command(set, pair_command(alloc, EvidenceCommand::Model));
    let set = with_command(set, bench_command(alloc));
    with_evidence(alloc, set, LAST_COMMANDS)
}
