//! The answer of `check`: from the bytes of its input to its lines.
ghost use Rattle.std.specs.Prelude.{◌≡◌, ◌<◌, ℕ, List, [], Ok, Err, IfOk, length, string_bytes};
ghost use Rattle.record_form.specs.declared.Refusal.{Refusal};
ghost use Rattle.check_command.specs.Answer.{IsCheckAnswer};
ghost use Rattle.check_command.specs.Lines.{check_lines};

use crate::fault::CheckError;
use definition_verdict::{VerdictError, judge_definition};
use record_form::{Refusal, YamlWord};
use sample_book::SampleBook;
use slo_catalog::Catalog;
use slo_limits::{MAX_MINUTE, MAX_TEXT_BYTES};
use std::alloc::{AllocError, Global};

/// The refusal of a text of more bytes than an input of documents may have.
pub fn too_large_text() -> Refusal
    ensures { (bytes : List ℕ) → MAX_TEXT_BYTES < length bytes →
        IsCheckAnswer bytes (Err result) }
{
    Refusal::Yaml {
        line: 0,
        which: YamlWord::TooLarge,
    }
}

/// The lines for so many documents and objects.
fn check_text(alloc: Global, documents: usize, objects: usize) -> Result<String, AllocError>
    ensures { IfOk result (λ text. string_bytes text ≡ check_lines documents objects) }
{
    format!(in alloc; "documents {documents}\nobjects {objects}\n")
}

/// The documents and the objects of a text that can be defined over these.
fn count_objects(
    alloc: Global,
    catalog: &Catalog,
    book: &SampleBook,
    bytes: &[u8],
) -> Result<(usize, usize), VerdictError>
    requires none { catalog.now ≡ [] }
    requires unread { book.now.rows ≡ [] }
    ensures ok { IfOk result (λ counts. IsCheckAnswer bytes.now
        (Ok (check_lines counts.0 counts.1))) }
    ensures fault { (refusal : Refusal) → result ≡ Err (VerdictError.Refused refusal) →
        IsCheckAnswer bytes.now (Err refusal) }
{
    match judge_definition(alloc, catalog, &[], book, MAX_MINUTE, bytes) {
        Ok(made) => Ok((made.documents, made.objects)),
        Err(error) => Err(error),
    }
}

/// Why there are no lines, where a text can't be defined.
fn fault_of(error: VerdictError) -> CheckError
    ensures { (refusal : Refusal) → result ≡ CheckError.Fault refusal →
        error ≡ VerdictError.Refused refusal }
{
    match error {
        VerdictError::Refused(refusal) => CheckError::Fault(refusal),
        VerdictError::NoMemory => CheckError::NoMemory,
    }
}

/// The lines for the bytes of an input, over an office that keeps nothing.
fn answer_over(
    alloc: Global,
    catalog: &Catalog,
    book: &SampleBook,
    bytes: &[u8],
) -> Result<String, CheckError>
    requires none { catalog.now ≡ [] }
    requires unread { book.now.rows ≡ [] }
    ensures ok { IfOk result (λ text. IsCheckAnswer bytes.now (Ok (string_bytes text))) }
    ensures fault { (refusal : Refusal) → result ≡ Err (CheckError.Fault refusal) →
        IsCheckAnswer bytes.now (Err refusal) }
{
    match count_objects(alloc, catalog, book, bytes) {
        Ok((documents, objects)) => match check_text(alloc, documents, objects) {
            Ok(text) => Ok(text),
            Err(_) => Err(CheckError::NoMemory),
        },
        Err(error) => Err(fault_of(error)),
    }
}

/// The lines for the bytes of an input.
pub fn answer_check(alloc: Global, bytes: &[u8]) -> Result<String, CheckError>
    ensures ok { IfOk result (λ text. IsCheckAnswer bytes.now (Ok (string_bytes text))) }
    ensures fault { (refusal : Refusal) → result ≡ Err (CheckError.Fault refusal) →
        IsCheckAnswer bytes.now (Err refusal) }
{
    let Ok(book) = SampleBook::new(alloc) else {
        return Err(CheckError::NoMemory);
    };
    let catalog = Catalog::new(alloc);
    answer_over(alloc, &catalog, &book, bytes)
}
