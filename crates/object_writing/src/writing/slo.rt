//! Objectives over time, as they are written.
ghost use Rattle.std.specs.Prelude.{◌≡◌, IfOk, OnOk};
ghost use Rattle.yaml_terms.specs.Spelling.{items as items_def};
ghost use Rattle.yaml_terms.specs.SpellingView.{spelling_view};
ghost use Rattle.object_terms.specs.Form.{map_with, optional, required, own_where, spelled_where};
ghost use Rattle.object_terms.specs.Form.{single, written_items};
ghost use Rattle.object_terms.specs.Ranges.{every_number, slice_target_range};
ghost use Rattle.object_terms.specs.Scalars.{number};
ghost use Rattle.object_terms.specs.Slo.{calendar, time_window, method, objective, objectives};
ghost use Rattle.object_terms.specs.Slo.{slice_width, policies, slo, slo_body};
ghost use Rattle.object_writing.specs.Adding.{Adds};

use crate::writing::alerts::references;
use crate::writing::field_lines::{
    optional_boolean, optional_description, optional_op, optional_text, required_duration,
    required_name, required_number, required_word,
};
use crate::writing::fields::{list_of, map_of, put, put_item};
use crate::writing::scalars;
use crate::writing::words::method_word;
use exact_fraction::Decimal;
use object_terms::keys::{
    ALERT_POLICIES, ALERT_POLICY_REF, BUDGETING_METHOD, CALENDAR, DESCRIPTION, DISPLAY_NAME,
    DURATION, INDICATOR_REF, IS_ROLLING, OBJECTIVES, OP, SERVICE, START_TIME, TARGET,
    TIME_SLICE_TARGET, TIME_SLICE_WINDOW, TIME_WINDOW, TIME_ZONE, VALUE,
};
use object_terms::{
    Body, BudgetingMethod, Calendar, Names, Objective, Objectives, SliceTarget, SliceWidth, Slo,
    TimeWindow,
};
use std::alloc::{AllocError, Global};
use yaml_terms::{FieldKey, Spelling};

/// The map of a calendar.
#[tactic(auto, unfolding(object_terms::specs::Slo::calendar))]
fn calendar_map(alloc: Global, value: &Calendar) -> Result<Spelling, AllocError>
    ensures { IfOk result (λ s. spelling_view s ≡ (map_with calendar).write value.now) }
{
    let mut fields = Vec::new(alloc);
    let start = scalars::moment(alloc, value.start_time)?;
    put(&mut fields, START_TIME, start)?;
    let zone = scalars::in_quotes(alloc, value.time_zone.as_bytes())?;
    put(&mut fields, TIME_ZONE, zone)?;
    Ok(map_of(fields))
}

/// A field of a calendar.
fn optional_calendar(
    fields: &mut Vec<(FieldKey, Spelling)>,
    key: &str,
    value: &Option<Calendar>,
) -> Result<(), AllocError>
    ensures { OnOk result (Adds fields.old.items fields.new.items
        (own_where key.now (spelled_where (map_with calendar) value.now))) }
{
    let Some(value) = value else {
        return Ok(());
    };
    let calendar = calendar_map(*fields.allocator(), value)?;
    put(fields, key, calendar)
}

/// The map of a window.
#[tactic(auto, unfolding(object_terms::specs::Slo::time_window))]
fn time_window_map(alloc: Global, value: &TimeWindow) -> Result<Spelling, AllocError>
    ensures { IfOk result (λ s. spelling_view s ≡ (map_with time_window).write value.now) }
{
    let mut fields = Vec::new(alloc);
    required_duration(&mut fields, DURATION, value.duration.span)?;
    optional_boolean(&mut fields, IS_ROLLING, value.is_rolling)?;
    optional_calendar(&mut fields, CALENDAR, &value.calendar)?;
    Ok(map_of(fields))
}

/// A list of the one window.
fn required_window(
    fields: &mut Vec<(FieldKey, Spelling)>,
    key: &str,
    value: &TimeWindow,
) -> Result<(), AllocError>
    ensures { OnOk result (Adds fields.old.items fields.new.items
        ((required key.now (single (map_with time_window))).write value.now)) }
{
    let alloc = *fields.allocator();
    let mut items = Vec::new(alloc);
    let window = time_window_map(alloc, value)?;
    put_item(&mut items, window)?;
    put(fields, key, list_of(items))
}

/// The field of the budgeting method.
fn required_method(
    fields: &mut Vec<(FieldKey, Spelling)>,
    key: &str,
    value: BudgetingMethod,
) -> Result<(), AllocError>
    ensures { OnOk result (Adds fields.old.items fields.new.items
        ((required key.now method).write value)) }
{
    required_word(fields, key, method_word(value))
}

/// The value with which an objective compares.
fn optional_value(
    fields: &mut Vec<(FieldKey, Spelling)>,
    key: &str,
    value: Option<Decimal>,
) -> Result<(), AllocError>
    ensures { OnOk result (Adds fields.old.items fields.new.items
        ((optional key.now (number every_number)).write value)) }
{
    match value {
        Some(value) => required_number(fields, key, value),
        None => Ok(()),
    }
}

/// The ratio from which on a slice is good.
fn optional_slice_target(
    fields: &mut Vec<(FieldKey, Spelling)>,
    key: &str,
    value: Option<SliceTarget>,
) -> Result<(), AllocError>
    ensures { OnOk result (Adds fields.old.items fields.new.items
        (own_where key.now (spelled_where (number slice_target_range) value))) }
{
    match value {
        Some(value) => required_number(fields, key, value.ratio),
        None => Ok(()),
    }
}

/// The width of a slice, in minutes.
fn optional_slice_width(
    fields: &mut Vec<(FieldKey, Spelling)>,
    key: &str,
    value: Option<SliceWidth>,
) -> Result<(), AllocError>
    ensures { OnOk result (Adds fields.old.items fields.new.items
        (own_where key.now (spelled_where slice_width value))) }
{
    let Some(value) = value else {
        return Ok(());
    };
    let width = scalars::minutes(*fields.allocator(), value.minutes)?;
    put(fields, key, width)
}

/// An objective. The methods differ in what must be told of it, and not in how it is written.
#[tactic(auto, unfolding(object_terms::specs::Slo::objective))]
fn objective_map(
    alloc: Global,
    _method: BudgetingMethod,
    value: &Objective,
) -> Result<Spelling, AllocError>
    ensures { IfOk result (λ s. spelling_view s ≡ (map_with (objective _method)).write value.now) }
{
    let mut fields = Vec::new(alloc);
    optional_text(&mut fields, DISPLAY_NAME, &value.display_name)?;
    optional_op(&mut fields, OP, value.op)?;
    optional_value(&mut fields, VALUE, value.value)?;
    required_number(&mut fields, TARGET, value.target.ratio)?;
    optional_slice_target(&mut fields, TIME_SLICE_TARGET, value.time_slice_target)?;
    optional_slice_width(&mut fields, TIME_SLICE_WINDOW, value.time_slice_window)?;
    Ok(map_of(fields))
}

/// The maps of objectives, as a list.
fn objective_list(
    alloc: Global,
    method: BudgetingMethod,
    values: &[Objective],
) -> Result<Spelling, AllocError>
    ensures { IfOk result (λ s. spelling_view s
        ≡ items_def (written_items (map_with (objective method)).write values.now)) }
{
    let mut items = Vec::new(alloc);
    for value in values {
        let item = objective_map(alloc, method, value)?;
        put_item(&mut items, item)?;
    }
    Ok(list_of(items))
}

/// The field of the objectives.
fn required_objectives(
    fields: &mut Vec<(FieldKey, Spelling)>,
    key: &str,
    method: BudgetingMethod,
    values: &Objectives,
) -> Result<(), AllocError>
    ensures { OnOk result (Adds fields.old.items fields.new.items
        ((required key.now (objectives method)).write values.now)) }
{
    let list = objective_list(*fields.allocator(), method, values.as_slice())?;
    put(fields, key, list)
}

/// A field of references to policies.
fn optional_policies(
    fields: &mut Vec<(FieldKey, Spelling)>,
    key: &str,
    names: &Option<Names>,
) -> Result<(), AllocError>
    ensures { OnOk result (Adds fields.old.items fields.new.items
        ((optional key.now policies).write names.now)) }
{
    let Some(names) = names else {
        return Ok(());
    };
    let list = references(*fields.allocator(), ALERT_POLICY_REF, names.as_slice())?;
    put(fields, key, list)
}

/// The map of an SLO.
#[tactic(auto, unfolding(object_terms::specs::Slo::slo))]
fn slo_map(alloc: Global, value: &Slo) -> Result<Spelling, AllocError>
    ensures { IfOk result (λ s. spelling_view s ≡ (map_with slo).write value.now) }
{
    let mut fields = Vec::new(alloc);
    optional_description(&mut fields, DESCRIPTION, &value.description)?;
    required_name(&mut fields, SERVICE, &value.service)?;
    required_name(&mut fields, INDICATOR_REF, &value.indicator)?;
    required_window(&mut fields, TIME_WINDOW, &value.time_window)?;
    let method = value.budgeting_method;
    required_method(&mut fields, BUDGETING_METHOD, method)?;
    required_objectives(&mut fields, OBJECTIVES, method, &value.objectives)?;
    optional_policies(&mut fields, ALERT_POLICIES, &value.alert_policies)?;
    Ok(map_of(fields))
}

/// The `spec` of an SLO.
pub(crate) fn slo_spec(alloc: Global, body: &Body) -> Result<Spelling, AllocError>
    ensures { IfOk result (λ s. spelling_view s ≡ slo_body.write body.now) }
{
    match body {
        Body::Slo(slo) => slo_map(alloc, slo),
        _ => Ok(map_of(Vec::new(alloc))),
    }
}
