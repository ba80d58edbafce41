//! Objects as documents.
ghost use Rattle.std.specs.Prelude.{◌≡◌, ◌≤◌, ◌++◌, ◌∷◌, [], Ok, IfOk, OnOk, OnErr, length};
ghost use Rattle.slo_limits.specs.declared.TheConstants.{MAX_TEXT_BYTES};
ghost use Rattle.yaml_terms.specs.Text.{StandsFor};
ghost use Rattle.yaml_terms.specs.Spelling.{meant, writing};
ghost use Rattle.yaml_terms.specs.Room.{up_to};
ghost use Rattle.yaml_terms.specs.SpellingView.{spelling_view};
ghost use Rattle.object_terms.specs.Form.{map_with};
ghost use Rattle.object_terms.specs.Metadata.{metadata, metadata_of};
ghost use Rattle.object_terms.specs.Document.{body, objects_of, written, IsOfDocument};

use crate::writing::alerts::{condition_spec, policy_spec};
use crate::writing::field_lines::{optional_free_map, optional_text, required_name, required_word};
use crate::writing::fields::{map_of, put};
use crate::writing::service::{data_source_spec, service_spec, target_spec};
use crate::writing::sli::sli_spec;
use crate::writing::slo::slo_spec;
use object_laws::laws;
use object_terms::keys::{
    ANNOTATIONS, API_VERSION, DISPLAY_NAME, KIND, LABELS, METADATA, NAME, SPEC,
};
use object_terms::{Body, Kind, Object};
use std::alloc::{AllocError, Global};
use yaml_terms::Spelling;
use yaml_writing::{write_spelling, written_length};

/// The map of the metadata of an object.
#[tactic(auto, unfolding(object_terms::specs::Metadata::metadata))]
fn metadata_map(alloc: Global, value: &Object) -> Result<Spelling, AllocError>
    ensures { IfOk result (λ s. spelling_view s
        ≡ (map_with metadata).write (metadata_of value.now)) }
{
    let mut fields = Vec::new(alloc);
    required_name(&mut fields, NAME, &value.name)?;
    optional_text(&mut fields, DISPLAY_NAME, &value.display_name)?;
    optional_free_map(&mut fields, LABELS, &value.labels)?;
    optional_free_map(&mut fields, ANNOTATIONS, &value.annotations)?;
    Ok(map_of(fields))
}

/// The `spec`, by the kind.
#[tactic(auto, unfolding(object_terms::specs::Document::body))]
fn spec_map(alloc: Global, kind: Kind, value: &Body) -> Result<Spelling, AllocError>
    ensures { IfOk result (λ s. spelling_view s ≡ (body kind).write value.now) }
{
    match kind {
        Kind::DataSource => data_source_spec(alloc, value),
        Kind::Service => service_spec(alloc, value),
        Kind::Sli => sli_spec(alloc, value),
        Kind::Slo => slo_spec(alloc, value),
        Kind::AlertPolicy => policy_spec(alloc, value),
        Kind::AlertCondition => condition_spec(alloc, value),
        Kind::AlertNotificationTarget => target_spec(alloc, value),
    }
}

/// The map of a document.
#[tactic(auto, unfolding(object_terms::specs::Document::document))]
fn document_map(alloc: Global, value: &Object) -> Result<Spelling, AllocError>
    ensures { IfOk result (λ s. spelling_view s ≡ written value.now) }
{
    let mut fields = Vec::new(alloc);
    required_word(&mut fields, API_VERSION, "openslo/v1")?;
    required_word(&mut fields, KIND, value.kind.word())?;
    let metadata = metadata_map(alloc, value)?;
    put(&mut fields, METADATA, metadata)?;
    let spec = spec_map(alloc, value.kind, &value.body)?;
    put(&mut fields, SPEC, spec)?;
    Ok(map_of(fields))
}

/// Appends the canonical writing of an object: its fields in the order of the tables, omitted ones
/// left out, fixed words, numbers, booleans and durations plain, every other text in double quotes,
/// objects that stood inline as references.
///
/// The text stands for the object alone, where it has at most `MAX_TEXT_BYTES` bytes. The error is
/// want of memory, and leaves all as it was.
pub fn write_object(out: &mut Vec<u8>, value: &Object) -> Result<(), AllocError>
    requires { IsOfDocument value.now }
    ensures exact { OnOk result (out.new.items ≡ out.old.items ++ writing 0 (written value.now)) }
    ensures kept { OnErr result (out.new.items ≡ out.old.items) }

    // The text stands for one node, and this node for the object alone.
    ensures stands { length (writing 0 (written value.now)) ≤ MAX_TEXT_BYTES
        → StandsFor (writing 0 (written value.now)) (meant (written value.now) ∷ []) }
    ensures alone { objects_of (meant (written value.now)) ≡ Ok (value.now ∷ []) }
{
    laws::each_object_can_be_written();
    laws::each_object_reads_back();
    let document = document_map(*out.allocator(), value)?;
    write_spelling(out, &document, 0)
}

/// How many bytes the canonical writing of an object has, where they are at most so many; nothing
/// where there are more. It isn't written. The error is want of memory.
pub fn object_length(
    alloc: Global,
    value: &Object,
    most: usize,
) -> Result<Option<usize>, AllocError>
    requires { IsOfDocument value.now }
    ensures { IfOk result (λ bytes. bytes ≡ up_to most (length (writing 0 (written value.now)))) }
{
    laws::each_object_can_be_written();
    let document = document_map(alloc, value)?;
    Ok(written_length(&document, 0, most))
}
