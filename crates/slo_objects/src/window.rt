//! Time windows and budgeting methods, as they are read.
ghost use Rattle.std.specs.Prelude.{◌≡◌, ◌||◌, cond};
ghost use Rattle.yaml_terms.specs.Spelling.{word};
ghost use Rattle.object_terms.specs.Form.{map_with, single, gives, refused};
ghost use Rattle.object_fields.specs.Reading.{Reads};
ghost use Rattle.object_terms.specs.Slo.{calendar, time_window, is_rolling as is_rolling_def};
ghost use Rattle.object_terms.specs.Slo.{is_calendar_unit as is_calendar_unit_def, method_word};
ghost use Rattle.object_terms.specs.Slo.{method_value};
ghost use Rattle.object_terms.specs.declared.fault.Rule.TheVariants as rules;

use object_fields::{
    BooleanForm, MomentForm, ReadForm, ReadText, WindowLengthForm, ZoneForm, close_with, fail_at,
    list_items, map_entries, only_item, optional, required, required_unless,
};
use object_terms::keys::{CALENDAR, DURATION, IS_ROLLING, START_TIME, TIME_ZONE};
use object_terms::{BudgetingMethod, Calendar, Objects, ReadError, Rule, TimeWindow, is_word};
use slo_duration::Unit;
use std::alloc::{AllocError, Global};
use yaml_terms::Node;

/// Whether a window is rolling, by its field.
fn is_rolling(rolling: Option<bool>) -> bool
    ensures { result ≡ is_rolling_def rolling }
{
    match rolling {
        Some(rolling) => rolling,
        None => false,
    }
}

/// Whether windows of a calendar may last so many of that unit.
fn is_calendar_unit(unit: Unit) -> bool
    ensures { result ≡ is_calendar_unit_def unit }
{
    match unit {
        Unit::Minute => false,
        Unit::Hour => false,
        Unit::Day => true,
        Unit::Week => true,
        Unit::Month => true,
        Unit::Quarter => true,
        Unit::Year => true,
    }
}

/// Whether a window may have a duration of that unit.
fn may_have_unit(rolling: bool, unit: Unit) -> bool
    ensures { result ≡ (rolling || is_calendar_unit_def unit) }
{
    rolling || is_calendar_unit(unit)
}

/// The budgeting method of a text, if it is one.
#[tactic(auto, unfolding(object_terms::specs::Slo::method_value))]
fn read_method(text: &[u8]) -> Result<BudgetingMethod, Rule>
    ensures { result ≡ method_value text.now }
{
    if is_word(text, "Occurrences") {
        Ok(BudgetingMethod::Occurrences)
    } else if is_word(text, "Timeslices") {
        Ok(BudgetingMethod::Timeslices)
    } else if is_word(text, "RatioTimeslices") {
        Ok(BudgetingMethod::RatioTimeslices)
    } else {
        Err(Rule::BadWord)
    }
}

/// A budgeting method.
pub(crate) struct MethodForm;

impl ReadText for MethodForm {
    type Value = BudgetingMethod;

    ghost other = { λ _. rules.BadWord };

    ghost value = { λ _. method_value };

    ghost spelled = { λ _ m. word (method_word m) };

    fn rule(&self) -> Rule {
        Rule::BadWord
    }

    fn parse(
        &self,
        _alloc: Global,
        text: &[u8],
    ) -> Result<Result<BudgetingMethod, Rule>, AllocError> {
        Ok(read_method(text))
    }
}

/// `calendar`.
struct CalendarForm;

impl ReadForm for CalendarForm {
    type Value = Calendar;

    ghost form = { λ _. map_with calendar };

    #[tactic(auto, unfolding(object_terms::specs::Slo::calendar))]
    fn read(&self, found: &mut Objects, key: &str, node: &Node) -> Result<Calendar, ReadError> {
        let Some(fields) = map_entries(node) else {
            return fail_at(found, key, Rule::NotMap);
        };
        let start_time = required(found, fields, START_TIME, &MomentForm)?;
        let time_zone = required(found, fields, TIME_ZONE, &ZoneForm)?;
        let calendar = Calendar {
            start_time,
            time_zone,
        };
        close_with(found, fields, &[START_TIME, TIME_ZONE], calendar)
    }
}

/// Refuses a duration that no calendar window can have.
fn check_unit(found: &Objects, fits: bool, key: &str) -> Result<(), ReadError>
    ensures { Reads found.now found.now result
        (cond fits (gives tt) (refused key.now Rule.OutOfRange)) }
{
    if fits {
        Ok(())
    } else {
        fail_at(found, key, Rule::OutOfRange)
    }
}

/// The item of `timeWindow`.
struct WindowForm;

impl ReadForm for WindowForm {
    type Value = TimeWindow;

    ghost form = { λ _. map_with time_window };

    #[tactic(auto, unfolding(object_terms::specs::Slo::time_window))]
    fn read(&self, found: &mut Objects, key: &str, node: &Node) -> Result<TimeWindow, ReadError> {
        let Some(fields) = map_entries(node) else {
            return fail_at(found, key, Rule::NotMap);
        };
        let duration = required(found, fields, DURATION, &WindowLengthForm)?;
        let is_rolling_field = optional(found, fields, IS_ROLLING, &BooleanForm)?;
        let rolling = is_rolling(is_rolling_field);
        let fits = may_have_unit(rolling, duration.span.unit);
        check_unit(found, fits, DURATION)?;
        let calendar = required_unless(found, fields, rolling, CALENDAR, &CalendarForm)?;
        let window = TimeWindow {
            duration,
            is_rolling: is_rolling_field,
            calendar,
        };
        close_with(found, fields, &[DURATION, IS_ROLLING, CALENDAR], window)
    }
}

/// `timeWindow`: a list of one window.
pub(crate) struct WindowsForm;

impl ReadForm for WindowsForm {
    type Value = TimeWindow;

    ghost form = { λ _. single (map_with time_window) };

    fn read(&self, found: &mut Objects, key: &str, node: &Node) -> Result<TimeWindow, ReadError> {
        let Some(items) = list_items(node) else {
            return fail_at(found, key, Rule::NotList);
        };
        match only_item(items) {
            Some(item) => WindowForm.read(found, key, item),
            None => fail_at(found, key, Rule::ListLength),
        }
    }
}
