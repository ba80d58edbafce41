//! Targets of notifications, as they are read.
ghost use Rattle.object_terms.specs.Form.{map_with};
ghost use Rattle.object_terms.specs.AlertNotificationTarget.{alert_notification_target};
ghost use Rattle.object_terms.specs.AlertNotificationTarget.{target_body};

use object_fields::{
    DescriptionForm, ReadForm, TextForm, close_with, fail_at, map_entries, optional, required,
};
use object_terms::keys::{DESCRIPTION, TARGET};
use object_terms::{AlertNotificationTarget, Body, Objects, ReadError, Rule};
use yaml_terms::Node;

/// The `spec` of a target.
struct TargetForm;

impl ReadForm for TargetForm {
    type Value = AlertNotificationTarget;

    ghost form = { λ _. map_with alert_notification_target };

    #[tactic(auto, unfolding(object_terms::specs::AlertNotificationTarget::alert_notification_target))]
    fn read(
        &self,
        found: &mut Objects,
        key: &str,
        node: &Node,
    ) -> Result<AlertNotificationTarget, ReadError> {
        let Some(fields) = map_entries(node) else {
            return fail_at(found, key, Rule::NotMap);
        };
        let description = optional(found, fields, DESCRIPTION, &DescriptionForm)?;
        let target = match required(found, fields, TARGET, &TextForm) {
            Ok(target) => target,
            Err(error) => {
                drop(description);
                return Err(error);
            }
        };
        let target = AlertNotificationTarget {
            description,
            target,
        };
        close_with(found, fields, &[DESCRIPTION, TARGET], target)
    }
}

/// The body of a target.
pub(crate) struct TargetBody;

impl ReadForm for TargetBody {
    type Value = Body;

    ghost form = { λ _. target_body };

    fn read(&self, found: &mut Objects, key: &str, node: &Node) -> Result<Body, ReadError> {
        match TargetForm.read(found, key, node) {
            Ok(target) => Ok(Body::AlertNotificationTarget(target)),
            Err(error) => Err(error),
        }
    }
}
