//! Metadata, objects that stand inline, and references.
ghost use Rattle.std.specs.Prelude.{◌≡◌, []};
ghost use Rattle.yaml_terms.specs.NodeView.{node_view};
ghost use Rattle.object_terms.specs.Form.{map_read, map_with, answer_by};
ghost use Rattle.object_fields.specs.Reading.{Reads, entries_view};
ghost use Rattle.object_terms.specs.Metadata.{metadata, object_with as object_with_def};
ghost use Rattle.object_terms.specs.Inline.{reference, inline_object as inline_object_def};
ghost use Rattle.object_terms.specs.Inline.{inline_read, item_read};

use crate::field_lines::{optional, required};
use crate::fields::{close_with, fail_at, field};
use crate::forms::{FreeMap, ReadForm};
use crate::scalars::{NameForm, OnlyKindForm, TextForm, VersionForm};
use crate::shape::map_entries;
use exact_fraction::Label;
use object_terms::keys::{
    ANNOTATIONS, API_VERSION, DISPLAY_NAME, KIND, LABELS, METADATA, NAME, SPEC,
};
use object_terms::{Body, Kind, Metadata, Object, Objects, ReadError, Rule};
use yaml_terms::{Node, ScalarText};

/// `metadata`.
pub struct MetadataForm;

impl ReadForm for MetadataForm {
    type Value = Metadata;

    ghost form = { λ _. map_with metadata };

    #[tactic(auto, unfolding(object_terms::specs::Metadata::metadata))]
    fn read(&self, found: &mut Objects, key: &str, node: &Node) -> Result<Metadata, ReadError> {
        let Some(fields) = map_entries(node) else {
            return fail_at(found, key, Rule::NotMap);
        };
        let name = required(found, fields, NAME, &NameForm)?;
        let display_name = optional(found, fields, DISPLAY_NAME, &TextForm)?;
        let labels = match optional(found, fields, LABELS, &FreeMap) {
            Ok(labels) => labels,
            Err(error) => {
                drop(display_name);
                return Err(error);
            }
        };
        let annotations = match optional(found, fields, ANNOTATIONS, &FreeMap) {
            Ok(annotations) => annotations,
            Err(error) => {
                drop(display_name);
                drop(labels);
                return Err(error);
            }
        };
        let metadata = Metadata {
            name,
            display_name,
            labels,
            annotations,
        };
        close_with(
            found,
            fields,
            &[NAME, DISPLAY_NAME, LABELS, ANNOTATIONS],
            metadata,
        )
    }
}

/// The object with these metadata.
pub fn object_with(kind: Kind, metadata: Metadata, body: Body) -> Object
    ensures { result ≡ object_with_def kind metadata body }
{
    Object {
        kind,
        name: metadata.name,
        display_name: metadata.display_name,
        labels: metadata.labels,
        annotations: metadata.annotations,
        body,
    }
}

/// An object that stands inline.
#[tactic(auto, unfolding(object_terms::specs::Inline::inline_object))]
fn inline_object<B: ReadForm<Value = Body>>(
    found: &mut Objects,
    fields: &[(ScalarText, Node)],
    kind: Kind,
    body: &B,
) -> Result<Object, ReadError>
    ensures { Reads found.old found.new result
        (answer_by (inline_object_def kind (B.form body.now)) [] (entries_view fields.now)) }
{
    let kind_form = OnlyKindForm { kind };
    let _version = optional(found, fields, API_VERSION, &VersionForm)?;
    let _kind = optional(found, fields, KIND, &kind_form)?;
    let metadata = required(found, fields, METADATA, &MetadataForm)?;
    let body = match required(found, fields, SPEC, body) {
        Ok(body) => body,
        Err(error) => {
            drop(metadata);
            return Err(error);
        }
    };
    let object = object_with(kind, metadata, body);
    close_with(found, fields, &[API_VERSION, KIND, METADATA, SPEC], object)
}

/// An object that stands inline: it is taken out behind those that stood in it, and its name stays.
pub fn inline_name<B: ReadForm<Value = Body>>(
    found: &mut Objects,
    fields: &[(ScalarText, Node)],
    kind: Kind,
    body: &B,
) -> Result<Label, ReadError>
    ensures { Reads found.old found.new result
        (inline_read kind (B.form body.now) (entries_view fields.now)) }
{
    let object = inline_object(found, fields, kind, body)?;
    let name = object.name;
    found.push(object)?;
    Ok(name)
}

/// The name in a map that is a reference: of that key alone.
#[tactic(auto, unfolding(object_terms::specs::Inline::reference))]
fn reference_name(
    found: &mut Objects,
    fields: &[(ScalarText, Node)],
    key: &str,
) -> Result<Label, ReadError>
    ensures { Reads found.old found.new result
        (answer_by (reference key.now) [] (entries_view fields.now)) }
{
    let name = required(found, fields, key, &NameForm)?;
    close_with(found, fields, &[key], name)
}

/// An item of a list of references: a map, which is a reference where the reference's key stands,
/// and else an object. A fault of its form is the list's.
pub fn referenced<B: ReadForm<Value = Body>>(
    found: &mut Objects,
    listed: &str,
    node: &Node,
    key: &str,
    kind: Kind,
    body: &B,
) -> Result<Label, ReadError>
    ensures { Reads found.old found.new result (map_read
        (item_read key.now kind (B.form body.now)) listed.now (node_view node.now)) }
{
    let Some(fields) = map_entries(node) else {
        return fail_at(found, listed, Rule::NotMap);
    };
    match field(fields, key) {
        None => inline_name(found, fields, kind, body),
        Some(_) => reference_name(found, fields, key),
    }
}
