//! Services, as they are read.
ghost use Rattle.object_terms.specs.Form.{map_with};
ghost use Rattle.object_terms.specs.Service.{service, service_body};

use object_fields::{DescriptionForm, ReadForm, close_with, fail_at, map_entries, optional};
use object_terms::keys::DESCRIPTION;
use object_terms::{Body, Objects, ReadError, Rule, Service};
use yaml_terms::Node;

/// The `spec` of a service.
struct ServiceForm;

impl ReadForm for ServiceForm {
    type Value = Service;

    ghost form = { λ _. map_with service };

    #[tactic(auto, unfolding(object_terms::specs::Service::service))]
    fn read(&self, found: &mut Objects, key: &str, node: &Node) -> Result<Service, ReadError> {
        let Some(fields) = map_entries(node) else {
            return fail_at(found, key, Rule::NotMap);
        };
        let description = optional(found, fields, DESCRIPTION, &DescriptionForm)?;
        close_with(found, fields, &[DESCRIPTION], Service { description })
    }
}

/// The body of a service.
pub(crate) struct ServiceBody;

impl ReadForm for ServiceBody {
    type Value = Body;

    ghost form = { λ _. service_body };

    fn read(&self, found: &mut Objects, key: &str, node: &Node) -> Result<Body, ReadError> {
        match ServiceForm.read(found, key, node) {
            Ok(service) => Ok(Body::Service(service)),
            Err(error) => Err(error),
        }
    }
}
