//! Services, data sources and targets of notifications, as they are written.
ghost use Rattle.std.specs.Prelude.{◌≡◌, IfOk};
ghost use Rattle.yaml_terms.specs.SpellingView.{spelling_view};
ghost use Rattle.object_terms.specs.Form.{map_with};
ghost use Rattle.object_terms.specs.Service.{service, service_body};
ghost use Rattle.object_terms.specs.DataSource.{data_source, data_source_body};
ghost use Rattle.object_terms.specs.AlertNotificationTarget.{alert_notification_target};
ghost use Rattle.object_terms.specs.AlertNotificationTarget.{target_body};

use crate::writing::field_lines::{optional_description, optional_free, required_text};
use crate::writing::fields::map_of;
use object_terms::keys::{CONNECTION_DETAILS, DESCRIPTION, TARGET, TYPE};
use object_terms::{AlertNotificationTarget, Body, DataSource, Service};
use std::alloc::{AllocError, Global};
use yaml_terms::Spelling;

/// The map of a service.
#[tactic(auto, unfolding(object_terms::specs::Service::service))]
fn service_map(alloc: Global, value: &Service) -> Result<Spelling, AllocError>
    ensures { IfOk result (λ s. spelling_view s ≡ (map_with service).write value.now) }
{
    let mut fields = Vec::new(alloc);
    optional_description(&mut fields, DESCRIPTION, &value.description)?;
    Ok(map_of(fields))
}

/// The `spec` of a service.
pub(crate) fn service_spec(alloc: Global, body: &Body) -> Result<Spelling, AllocError>
    ensures { IfOk result (λ s. spelling_view s ≡ service_body.write body.now) }
{
    match body {
        Body::Service(service) => service_map(alloc, service),
        _ => Ok(map_of(Vec::new(alloc))),
    }
}

/// The map of a data source.
#[tactic(auto, unfolding(object_terms::specs::DataSource::data_source))]
fn data_source_map(alloc: Global, value: &DataSource) -> Result<Spelling, AllocError>
    ensures { IfOk result (λ s. spelling_view s ≡ (map_with data_source).write value.now) }
{
    let mut fields = Vec::new(alloc);
    optional_description(&mut fields, DESCRIPTION, &value.description)?;
    required_text(&mut fields, TYPE, &value.type_text)?;
    optional_free(&mut fields, CONNECTION_DETAILS, &value.connection_details)?;
    Ok(map_of(fields))
}

/// The `spec` of a data source.
pub(crate) fn data_source_spec(alloc: Global, body: &Body) -> Result<Spelling, AllocError>
    ensures { IfOk result (λ s. spelling_view s ≡ data_source_body.write body.now) }
{
    match body {
        Body::DataSource(data_source) => data_source_map(alloc, data_source),
        _ => Ok(map_of(Vec::new(alloc))),
    }
}

/// The map of a target of notifications.
#[tactic(auto, unfolding(object_terms::specs::AlertNotificationTarget::alert_notification_target))]
fn target_map(alloc: Global, value: &AlertNotificationTarget) -> Result<Spelling, AllocError>
    ensures { IfOk result (λ s. spelling_view s
        ≡ (map_with alert_notification_target).write value.now) }
{
    let mut fields = Vec::new(alloc);
    optional_description(&mut fields, DESCRIPTION, &value.description)?;
    required_text(&mut fields, TARGET, &value.target)?;
    Ok(map_of(fields))
}

/// The `spec` of a target of notifications.
pub(crate) fn target_spec(alloc: Global, body: &Body) -> Result<Spelling, AllocError>
    ensures { IfOk result (λ s. spelling_view s ≡ target_body.write body.now) }
{
    match body {
        Body::AlertNotificationTarget(target) => target_map(alloc, target),
        _ => Ok(map_of(Vec::new(alloc))),
    }
}
