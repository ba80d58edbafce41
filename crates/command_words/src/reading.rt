//! The reading of the words.
ghost use Rattle.std.specs.Prelude.{◌≡◌, false, Err, IfOk, IfSome, None, Some, map, option_map};
ghost use Rattle.std.specs.Prelude.{string_bytes};
ghost use Rattle.std.specs.List.{list_any};
ghost use Rattle.clap.specs.Matches.{found_of};
ghost use Rattle.clap.specs.Simple.{subcommand_rows_of as found_by};
ghost use Rattle.clap.specs.Walk.{first_of, rows_of as arguments_of};
ghost use Rattle.command_words.specs.Commands.{IsSound, IsSoundInvocation, asked_of};
ghost use Rattle.command_words.specs.Commands.{is_dashed as dashed, only_reads as reads_alone};
ghost use Rattle.command_words.specs.Matches.{begins_with_reader as reader_first};
ghost use Rattle.command_words.specs.Matches.{asked_by, asked_in, minute_by, number_by};
ghost use Rattle.command_words.specs.Matches.{counters_by, order_by, part_by, port_by};

use crate::forms::forms;
use crate::invocation::{CountersOrder, InputCommand, Invocation};
use budget_command::{BudgetOrder, read_order};
use clap::ArgMatches;
use clap::error::ErrorKind;
use exact_fraction::{read_label, read_plain_number};
use sample_stream::MAX_NUMBER;
use slo_limits::MAX_MINUTE;
use std::alloc::Global;

/// The greatest number of a part. The requests of the largest office are eleven parts; a script may
/// count on until a part is empty.
pub const MAX_PARTS: u32 = 100_000;

/// Why the words ask for no command.
#[derive(Clone, Copy, Debug, PartialEq, Eq)]
pub enum WordsFault {
    /// They are no form of a command.
    Usage,
    /// Memory ran out.
    NoMemory,
}

fn is_dashed(word: &String) -> bool
    ensures { result ≡ dashed (string_bytes word.now) }
{
    match word.as_bytes().first() {
        Some(byte) => *byte == b'-',
        None => false,
    }
}

/// Whether a word begins with a hyphen.
fn has_dashes(words: &[String]) -> bool
    ensures { result ≡ list_any (λ word. dashed (string_bytes word)) words.now }
{
    words.iter().any(|word| is_dashed(word))
}

/// The command that the words ask for, and its own words, by `clap`.
fn parse<'a>(alloc: Global, words: &'a [String]) -> Result<ArgMatches<'a>, WordsFault>
    requires { list_any (λ word. dashed (string_bytes word)) words.now ≡ false }
    ensures ok { IfOk result (λ m. asked_by (found_by m)
        ≡ asked_of (map string_bytes words.entry.now)) }
    ensures usage { result ≡ Err WordsFault.Usage →
        asked_of (map string_bytes words.entry.now) ≡ None }
{
    let Ok(forms) = forms(alloc) else {
        return Err(WordsFault::NoMemory);
    };
    match forms.try_get_matches_from(words) {
        Ok(matches) => Ok(matches),
        Err(error) => {
            if error.kind() == ErrorKind::OutOfMemory {
                return Err(WordsFault::NoMemory);
            }
            Err(WordsFault::Usage)
        }
    }
}

/// A word of a command.
fn word<'a>(words: &ArgMatches<'a>, id: &str) -> Option<&'a str>
    ensures { option_map (λ s. s.now) result ≡ first_of id.now (arguments_of (found_of words.now)) }
{
    words.get_str(id)
}

/// The minute that a word asks for: None leaves it to the clock's reading. None in all where it is
/// no minute of the clock.
fn read_minute(words: &ArgMatches, id: &str) -> Option<Option<u32>>
    ensures { result ≡ minute_by (first_of id.now (arguments_of (found_of words.now))) }
{
    match word(words, id) {
        Some(text) => {
            let minute = read_plain_number(text.as_bytes(), u64::from(MAX_MINUTE))?;
            Some(Some(minute as u32))
        }
        None => Some(None),
    }
}

/// The number of a sample stream.
fn read_number(words: &ArgMatches, id: &str) -> Option<u32>
    ensures { result ≡ number_by (first_of id.now (arguments_of (found_of words.now))) }
{
    let text = word(words, id)?;
    let number = read_plain_number(text.as_bytes(), u64::from(MAX_NUMBER))?;
    if number == 0 {
        return None;
    }
    Some(number as u32)
}

/// The number of a part of an export.
fn read_part(words: &ArgMatches, id: &str) -> Option<u32>
    ensures { result ≡ part_by (first_of id.now (arguments_of (found_of words.now))) }
{
    let text = word(words, id)?;
    let part = read_plain_number(text.as_bytes(), u64::from(MAX_PARTS))?;
    if part == 0 {
        return None;
    }
    Some(part as u32)
}

/// The number of a port.
fn read_port(words: &ArgMatches, id: &str) -> Option<u16>
    ensures { result ≡ port_by (first_of id.now (arguments_of (found_of words.now))) }
{
    let text = word(words, id)?;
    let port = read_plain_number(text.as_bytes(), u64::from(u16::MAX))?;
    if port == 0 {
        return None;
    }
    Some(port as u16)
}

/// What the words of `counters` ask for.
fn read_counters(words: &ArgMatches, id: &str) -> Option<CountersOrder>
    ensures { result ≡ counters_by (first_of id.now (arguments_of (found_of words.now))) }
{
    let text = word(words, id)?;
    let sli = read_label(text.as_bytes())?;
    Some(CountersOrder { sli })
}

/// What the words of `budget` ask for.
fn read_budget(words: &ArgMatches) -> Option<InputCommand>
    ensures order { result ≡ order_by (arguments_of (found_of words.now)) }
    ensures sound { IfSome result IsSound }
{
    let target = word(words, "target")?;
    let from = word(words, "from")?;
    let to = word(words, "to")?;
    let order = read_order(target.as_bytes(), from.as_bytes(), to.as_bytes())?;
    Some(InputCommand::Budget(order))
}

/// What the words of the command of this name ask for.
fn read_command(name: &str, words: &ArgMatches) -> Option<Invocation>
    ensures asked { result ≡ asked_in name.now (arguments_of (found_of words.now)) }
    ensures sound { IfSome result IsSoundInvocation }
{
    match name {
        "budget" => Some(Invocation::Answer(read_budget(words)?)),
        "check" => Some(Invocation::Answer(InputCommand::Check)),
        "init" => Some(Invocation::Init(read_minute(words, "origin")?)),
        "pipe" => Some(Invocation::Pipe),
        "report" => Some(Invocation::Report(read_minute(words, "at")?)),
        "serve" => Some(Invocation::Serve(read_port(words, "port")?)),
        "generate" => Some(Invocation::Generate(read_number(words, "number")?)),
        "counters" => Some(Invocation::Counters(read_counters(words, "sli")?)),
        "migrate" => Some(Invocation::Migrate),
        "export" => Some(Invocation::Export(read_part(words, "part")?)),
        "follow" => Some(Invocation::Follow),
        _ => None,
    }
}

/// What the words ask for, of which `clap` has made these matches.
fn read_matches(matches: &ArgMatches) -> Option<Invocation>
    ensures asked { result ≡ asked_by (found_by matches.now) }
    ensures sound { IfSome result IsSoundInvocation }
{
    let (name, words) = matches.subcommand()?;
    read_command(name, words)
}

/// What the words ask for. A word that begins with a hyphen belongs to no form.
///
/// # Errors
///
/// The words are no form of a command, or memory ran out.
pub fn read_words(alloc: Global, words: &[String]) -> Result<Invocation, WordsFault>
    ensures asked { IfOk result (λ asked. asked_of (map string_bytes words.now) ≡ Some asked) }
    ensures sound { IfOk result IsSoundInvocation }
    ensures usage { result ≡ Err WordsFault.Usage → asked_of (map string_bytes words.now) ≡ None }
{
    if has_dashes(words) {
        return Err(WordsFault::Usage);
    }
    match parse(alloc, words) {
        Ok(matches) => match read_matches(&matches) {
            Some(asked) => Ok(asked),
            None => Err(WordsFault::Usage),
        },
        Err(fault) => Err(fault),
    }
}

/// Whether the first word is the name of a command that only reads.
fn begins_with_reader(words: &[String]) -> bool
    ensures { result ≡ reader_first (map string_bytes words.now) }
{
    match words.first() {
        Some(word) => word.as_str() == "report" || word.as_str() == "export",
        None => false,
    }
}

/// Whether the words ask for a command that reads the journal's file and changes nothing in it.
/// Words that ask for nothing may be taken for either.
pub fn only_reads(words: &[String]) -> bool
    ensures { (asked : Invocation) → asked_of (map string_bytes words.now) ≡ Some asked
        → result ≡ reads_alone asked }
{
    begins_with_reader(words)
}
