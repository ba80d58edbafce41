//! The forms of the commands, as `clap` is told them: one level of subcommands, and behind each its
//! words in order. A leading hyphen and `help` mean nothing.
ghost use Rattle.std.specs.Prelude.{◌≡◌, IfOk, false};
ghost use Rattle.clap.specs.Simple.{app_of, new_app, with_rule, with_subcommand};
ghost use Rattle.clap.specs.declared.builder.command.Command.TheViews.{out-Command as fields_of};
ghost use Rattle.command_words.specs.Forms.{bare_form, budget_form, first_form, one_word_form};
ghost use Rattle.command_words.specs.Forms.{whole_form, word_rule};

use clap::{Arg, Command};
use std::alloc::{AllocError, Global};

/// A command with one word more behind its name.
fn with_word<'a>(
    alloc: Global,
    command: Command<'a>,
    word: &'a str,
    is_needed: bool,
) -> Result<Command<'a>, AllocError>
    requires { (fields_of command).has_globals ≡ false }
    ensures form { IfOk result (λ c. app_of c
        ≡ with_rule (app_of command.entry) (word_rule word.entry.now is_needed)) }
    ensures local { IfOk result (λ c. (fields_of c).has_globals ≡ false) }
{
    let word = Arg::new(alloc, word).required(is_needed);
    command.arg(word)
}

fn budget<'a>(alloc: Global) -> Result<Command<'a>, AllocError>
    ensures form { IfOk result (λ c. app_of c ≡ budget_form) }
    ensures local { IfOk result (λ c. (fields_of c).has_globals ≡ false) }
{
    let command = one_word(alloc, "budget", "target", true)?;
    let command = with_word(alloc, command, "from", true)?;
    with_word(alloc, command, "to", true)
}

/// A command with one word behind its name.
fn one_word<'a>(
    alloc: Global,
    name: &'a str,
    word: &'a str,
    is_needed: bool,
) -> Result<Command<'a>, AllocError>
    ensures form { IfOk result (λ c. app_of c ≡ one_word_form name.entry.now word.entry.now
        is_needed) }
    ensures local { IfOk result (λ c. (fields_of c).has_globals ≡ false) }
{
    with_word(alloc, Command::new(alloc, name), word, is_needed)
}

/// The program without its commands.
fn bare<'a>(alloc: Global) -> Command<'a>
    ensures { app_of result ≡ bare_form }
{
    Command::new(alloc, "slo_office")
        .no_binary_name(true)
        .disable_help_flag(true)
        .disable_help_subcommand(true)
        .disable_version_flag(true)
        .subcommand_required(true)
}

/// The program with `budget` too.
fn with_budget<'a>(alloc: Global, program: Command<'a>) -> Result<Command<'a>, AllocError>
    ensures { IfOk result (λ c. app_of c
        ≡ with_subcommand (app_of program.entry) budget_form.top) }
{
    let command = budget(alloc)?;
    program.subcommand(command)
}

/// The program with one command more, which is its name alone.
fn with_name<'a>(
    alloc: Global,
    program: Command<'a>,
    name: &'a str,
) -> Result<Command<'a>, AllocError>
    ensures { IfOk result (λ c. app_of c
        ≡ with_subcommand (app_of program.entry) (new_app name.entry.now).top) }
{
    program.subcommand(Command::new(alloc, name))
}

/// The program with one command more, which has one word behind its name.
fn with_one_word<'a>(
    alloc: Global,
    program: Command<'a>,
    name: &'a str,
    word: &'a str,
    is_needed: bool,
) -> Result<Command<'a>, AllocError>
    ensures { IfOk result (λ c. app_of c ≡ with_subcommand (app_of program.entry)
        (one_word_form name.entry.now word.entry.now is_needed).top) }
{
    let command = one_word(alloc, name, word, is_needed)?;
    program.subcommand(command)
}

/// The program with the commands up to `report`.
fn first_forms<'a>(alloc: Global) -> Result<Command<'a>, AllocError>
    ensures { IfOk result (λ c. app_of c ≡ first_form) }
{
    let program = bare(alloc);
    let program = with_budget(alloc, program)?;
    let program = with_name(alloc, program, "check")?;
    let program = with_one_word(alloc, program, "init", "origin", false)?;
    let program = with_name(alloc, program, "pipe")?;
    with_one_word(alloc, program, "report", "at", false)
}

/// All commands.
pub(crate) fn forms<'a>(alloc: Global) -> Result<Command<'a>, AllocError>
    ensures { IfOk result (λ c. app_of c ≡ whole_form) }
{
    let program = first_forms(alloc)?;
    let program = with_one_word(alloc, program, "serve", "port", true)?;
    let program = with_one_word(alloc, program, "generate", "number", true)?;
    let program = with_one_word(alloc, program, "counters", "sli", true)?;
    let program = with_name(alloc, program, "migrate")?;
    let program = with_one_word(alloc, program, "export", "part", true)?;
    with_name(alloc, program, "follow")
}
