//! Objectives of an SLO, as they are read.
ghost use Rattle.std.specs.Prelude.{◌≡◌, decimal};
ghost use Rattle.std.specs.List.{list_all};
ghost use Rattle.std.specs.Char.{is_ascii_digit};
ghost use Rattle.exact_fraction.specs.Digits.{is_number};
ghost use Rattle.yaml_terms.specs.Spelling.{word};
ghost use Rattle.object_terms.specs.Form.{map_with};
ghost use Rattle.object_terms.specs.Slo.{objective, width_value};
ghost use Rattle.object_terms.specs.Slo.{has_slice_target as has_slice_target_def};
ghost use Rattle.object_terms.specs.Slo.{has_slices as has_slices_def};
ghost use Rattle.object_terms.specs.declared.fault.Rule.TheVariants as rules;

use exact_fraction::read_number;
use object_fields::{
    NumberForm, OpForm, PercentForm, ReadForm, ReadText, SliceTargetForm, TargetForm, TextForm,
    close_with, duration_at, fail_at, in_range, map_entries, one_of, optional, required_where,
};
use object_terms::keys::{
    DISPLAY_NAME, OP, TARGET, TARGET_PERCENT, TIME_SLICE_TARGET, TIME_SLICE_WINDOW, VALUE,
};
use object_terms::{BudgetingMethod, Objective, Objects, ReadError, Rule, SliceWidth};
use slo_duration::rolling_minutes;
use std::alloc::{AllocError, Global};
use yaml_terms::Node;

/// Whether each byte is a digit.
fn all_digits(text: &[u8]) -> bool
    ensures { result ≡ list_all is_ascii_digit text.now }
{
    text.iter().all(|byte| byte.is_ascii_digit())
}

/// Whether a text is a number of digits alone.
fn is_digits(text: &[u8]) -> bool
    ensures { result ≡ is_number text.now }
{
    text.len() != 0 && all_digits(text)
}

/// The width of a slice: minutes where the text has digits alone, else a duration.
#[tactic(auto, unfolding(object_terms::specs::Slo::width_value))]
fn read_width(text: &[u8]) -> Result<SliceWidth, Rule>
    ensures { result ≡ width_value text.now }
{
    if is_digits(text) {
        return match read_number(text, 60) {
            Some(minutes) => in_range(SliceWidth::of(minutes as u32)),
            None => Err(Rule::OutOfRange),
        };
    }
    match duration_at(text) {
        Ok(span) => in_range(SliceWidth::of(rolling_minutes(span))),
        Err(rule) => Err(rule),
    }
}

/// The width of a slice: minutes, or a duration.
pub(crate) struct WidthForm;

impl ReadText for WidthForm {
    type Value = SliceWidth;

    ghost other = { λ _. rules.NotDuration };

    ghost value = { λ _. width_value };

    ghost spelled = { λ _ w. word (decimal w.minutes) };

    fn rule(&self) -> Rule {
        Rule::NotDuration
    }

    fn parse(&self, _alloc: Global, text: &[u8]) -> Result<Result<SliceWidth, Rule>, AllocError> {
        Ok(read_width(text))
    }
}

/// Whether objectives by this method name the ratio from which on a slice is good.
fn has_slice_target(method: BudgetingMethod) -> bool
    ensures { result ≡ has_slice_target_def method }
{
    match method {
        BudgetingMethod::Occurrences => false,
        BudgetingMethod::Timeslices => true,
        BudgetingMethod::RatioTimeslices => false,
    }
}

/// Whether objectives by this method name the width of a slice.
fn has_slices(method: BudgetingMethod) -> bool
    ensures { result ≡ has_slices_def method }
{
    match method {
        BudgetingMethod::Occurrences => false,
        BudgetingMethod::Timeslices => true,
        BudgetingMethod::RatioTimeslices => true,
    }
}

/// An item of `objectives`.
#[derive(Clone, Copy)]
pub(crate) struct ObjectiveForm {
    pub(crate) method: BudgetingMethod,
}

impl ReadForm for ObjectiveForm {
    type Value = Objective;

    ghost form = { λ o. map_with (objective o.method) };

    #[tactic(auto, unfolding(object_terms::specs::Slo::objective))]
    fn read(&self, found: &mut Objects, key: &str, node: &Node) -> Result<Objective, ReadError> {
        let Some(fields) = map_entries(node) else {
            return fail_at(found, key, Rule::NotMap);
        };
        let wants_target = has_slice_target(self.method);
        let wants_width = has_slices(self.method);
        let display_name = optional(found, fields, DISPLAY_NAME, &TextForm)?;
        let op = optional(found, fields, OP, &OpForm)?;
        let value = optional(found, fields, VALUE, &NumberForm)?;
        let target = one_of(
            found,
            fields,
            TARGET,
            &TargetForm,
            TARGET_PERCENT,
            &PercentForm,
        )?;
        let time_slice_target = required_where(
            found,
            fields,
            wants_target,
            TIME_SLICE_TARGET,
            &SliceTargetForm,
        )?;
        let time_slice_window = required_where(
            found,
            fields,
            wants_width,
            TIME_SLICE_WINDOW,
            &WidthForm,
        )?;
        let objective = Objective {
            display_name,
            op,
            value,
            target,
            time_slice_target,
            time_slice_window,
        };
        close_with(
            found,
            fields,
            &[
                DISPLAY_NAME,
                OP,
                VALUE,
                TARGET,
                TARGET_PERCENT,
                TIME_SLICE_TARGET,
                TIME_SLICE_WINDOW,
            ],
            objective,
        )
    }
}
