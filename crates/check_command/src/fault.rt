//! The refusals of `check` in words: the name of the refusal, and then what it says, parted by
//! spaces.
ghost use Rattle.std.specs.Prelude.{◌≡◌, IfOk, string_bytes};
ghost use Rattle.check_command.specs.Words.{word_of_limit, words_of_refusal, word_of_yaml};

use record_form::{LimitName, Refusal, YamlWord};
use std::alloc::{AllocError, Global};

/// Why there are no lines to print.
#[derive(Drop)]
pub enum CheckError {
    Fault(Refusal),
    NoMemory,
}

/// The word for what is wrong with a text of documents.
fn yaml_word(word: YamlWord) -> &'static str
    ensures { result.now ≡ word_of_yaml word }
{
    match word {
        YamlWord::TooLarge => "too_large",
        YamlWord::NotUtf8 => "not_utf8",
        YamlWord::Form(which) => which.word(),
    }
}

/// The word for a limit of a definition.
fn limit_word(limit: LimitName) -> &'static str
    ensures { result.now ≡ word_of_limit limit }
{
    match limit {
        LimitName::Objects => "objects",
        LimitName::Catalog => "catalog",
        LimitName::Slis => "slis",
        LimitName::Slos => "slos",
        LimitName::Bindings => "bindings",
        LimitName::Starts => "starts",
        _ => "",
    }
}

/// The words for a text that is refused. No definition is refused otherwise.
pub fn check_words(alloc: Global, refusal: Refusal) -> Result<String, AllocError>
    ensures { IfOk result (λ text. string_bytes text ≡ words_of_refusal refusal) }
{
    match refusal {
        Refusal::Yaml { line, which } => {
            let word = yaml_word(which);
            format!(in alloc; "yaml {line} {word}")
        }
        Refusal::Object {
            document,
            field,
            rule,
        } => {
            let field = field.as_str();
            let word = rule.word();
            format!(in alloc; "object {document} {field} {word}")
        }
        Refusal::ReservedPolicy { name } => format!(in alloc; "reserved {name}"),
        Refusal::Duplicate { kind, name } => {
            let kind = kind.word();
            format!(in alloc; "duplicate {kind} {name}")
        }
        Refusal::Unresolved {
            from_kind,
            from_name,
            kind,
            name,
        } => {
            let from_kind = from_kind.word();
            let kind = kind.word();
            format!(in alloc; "unresolved {from_kind} {from_name} {kind} {name}")
        }
        Refusal::NeedsOp { objective, slo } => format!(in alloc; "needs_op {objective} {slo}"),
        Refusal::UnknownZone { name } => format!(in alloc; "unknown_zone {name}"),
        Refusal::HasSamples {
            minute,
            name,
            source,
        } => format!(in alloc; "has_samples {minute} {name} {source}"),
        Refusal::Limit { which } => {
            let word = limit_word(which);
            format!(in alloc; "limit {word}")
        }
        _ => Ok(String::new(alloc)),
    }
}
