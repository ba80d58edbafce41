//! Documents, and the objects that they stand for.
ghost use Rattle.std.specs.Prelude.{IfOk};
ghost use Rattle.std.specs.List.{All};
ghost use Rattle.yaml_terms.specs.SpellingFits.{IsWritable};
ghost use Rattle.yaml_terms.specs.NodeView.{node_view};
ghost use Rattle.object_terms.specs.Form.{map_with};
ghost use Rattle.object_fields.specs.Reading.{Gives};
ghost use Rattle.object_terms.specs.Document.{body, document, objects_of, IsOfDocument};

use crate::alert_condition::ConditionBody;
use crate::alert_notification_target::TargetBody;
use crate::alert_policy::PolicyBody;
use crate::data_source::DataSourceBody;
use crate::service::ServiceBody;
use crate::sli::SliBody;
use crate::slo::SloBody;
use object_fields::{
    KindForm, MetadataForm, ReadForm, VersionForm, close_with, fail_at, map_entries, object_with,
    required,
};
use object_terms::keys::{API_VERSION, KIND, METADATA, SPEC};
use object_terms::{Body, DOCUMENT, Kind, Object, Objects, ReadError, Rule};
use std::alloc::Global;
use yaml_terms::Node;

/// What stands in `spec`, by the kind.
#[derive(Clone, Copy)]
struct BodyForm {
    kind: Kind,
}

impl ReadForm for BodyForm {
    type Value = Body;

    ghost form = { λ b. body b.kind };

    #[tactic(auto, unfolding(object_terms::specs::Document::body))]
    fn read(&self, found: &mut Objects, key: &str, node: &Node) -> Result<Body, ReadError> {
        match self.kind {
            Kind::DataSource => DataSourceBody.read(found, key, node),
            Kind::Service => ServiceBody.read(found, key, node),
            Kind::Sli => SliBody.read(found, key, node),
            Kind::Slo => SloBody.read(found, key, node),
            Kind::AlertPolicy => PolicyBody.read(found, key, node),
            Kind::AlertCondition => ConditionBody.read(found, key, node),
            Kind::AlertNotificationTarget => TargetBody.read(found, key, node),
        }
    }
}

/// A document.
struct DocumentForm;

impl ReadForm for DocumentForm {
    type Value = Object;

    ghost form = { λ _. map_with document };

    #[tactic(auto, unfolding(object_terms::specs::Document::document))]
    fn read(&self, found: &mut Objects, key: &str, node: &Node) -> Result<Object, ReadError> {
        let Some(fields) = map_entries(node) else {
            return fail_at(found, key, Rule::NotMap);
        };
        let _version = required(found, fields, API_VERSION, &VersionForm)?;
        let kind = required(found, fields, KIND, &KindForm)?;
        let metadata = required(found, fields, METADATA, &MetadataForm)?;
        let body_form = BodyForm { kind };
        let body = match required(found, fields, SPEC, &body_form) {
            Ok(body) => body,
            Err(error) => {
                drop(metadata);
                return Err(error);
            }
        };
        let object = object_with(kind, metadata, body);
        close_with(found, fields, &[API_VERSION, KIND, METADATA, SPEC], object)
    }
}

/// The objects that a document stands for: those that stand inline, in order, and then its own.
///
/// # Errors
///
/// The first fault of the node, in the order of the tables of fields, depth first; unknown fields
/// of a map come after its known ones. Or memory ran out.
pub fn read_object(alloc: Global, node: &Node) -> Result<Objects, ReadError>
    ensures exact { Gives (λ objects. objects) result (objects_of (node_view node.now)) }

    // What may be asked of an object wherever it goes: some document stands for it.
    ensures origin { IsWritable (node_view node.now)
        → IfOk result (λ objects. All IsOfDocument objects) }
{
    let mut objects = Objects::new(alloc);
    match DocumentForm.read(&mut objects, DOCUMENT, node) {
        Ok(own) => objects.push(own)?,
        Err(error) => {
            drop(objects);
            return Err(error);
        }
    }
    Ok(objects)
}
