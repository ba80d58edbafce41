//! Scalars: decimals and durations.
ghost use Rattle.std.specs.Prelude.{◌≡◌, ◌≤◌, length};
ghost use Rattle.std.specs.Char.{is_ascii_digit};
ghost use Rattle.std.specs.List.{prefix_len};
ghost use Rattle.object_terms.specs.Durations.{duration_or_rule, duration_value, duration_written};
ghost use Rattle.object_terms.specs.Ranges.{every_number, lookback_range, slice_target_range};
ghost use Rattle.object_terms.specs.Ranges.{target_range, threshold_range, wait_range};
ghost use Rattle.object_terms.specs.Ranges.{window_range};
ghost use Rattle.object_terms.specs.Scalars.{found_or, number_or_rule, number_value};
ghost use Rattle.object_terms.specs.Scalars.{number_written};
ghost use Rattle.object_terms.specs.Scalars.{has_few_decimals as has_few_decimals_def};
ghost use Rattle.object_terms.specs.Scalars.{percent_value};
ghost use Rattle.object_terms.specs.declared.fault.Rule.TheVariants as rules;

use crate::forms::ReadText;
use exact_fraction::{Decimal, DecimalFault, read_decimal};
use object_terms::{AlertAfter, Lookback, Rule, SliceTarget, Target, Threshold, WindowLength};
use slo_duration::{Duration, DurationFault, read_duration};
use std::alloc::{AllocError, Global};

/// A value in its range, or the rule that one outside of it breaks.
pub fn in_range<T>(value: Option<T>) -> Result<T, Rule>
    ensures { result ≡ found_or rules.OutOfRange value }
{
    match value {
        Some(value) => Ok(value),
        None => Err(Rule::OutOfRange),
    }
}

/// The decimal of a text, or the rule that it breaks.
#[tactic(auto, unfolding(object_terms::specs::Scalars::number_or_rule))]
fn number_at(text: &[u8]) -> Result<Decimal, Rule>
    ensures { result ≡ number_or_rule text.now }
{
    match read_decimal(text) {
        Ok(value) => Ok(value),
        Err(DecimalFault::TooLarge) => Err(Rule::OutOfRange),
        Err(DecimalFault::Empty) => Err(Rule::NotNumber),
        Err(DecimalFault::BadByte(_)) => Err(Rule::NotNumber),
        Err(DecimalFault::TooManyDecimals) => Err(Rule::NotNumber),
    }
}

/// Any decimal.
#[tactic(auto, unfolding(object_terms::specs::Scalars::number_value))]
fn read_number(text: &[u8]) -> Result<Decimal, Rule>
    ensures { result ≡ number_value every_number text.now }
{
    match number_at(text) {
        Ok(value) => Ok(value),
        Err(rule) => Err(rule),
    }
}

/// A decimal that is a target.
#[tactic(auto, unfolding(object_terms::specs::Scalars::number_value))]
fn read_target(text: &[u8]) -> Result<Target, Rule>
    ensures { result ≡ number_value target_range text.now }
{
    match number_at(text) {
        Ok(ratio) => in_range(Target::of(ratio)),
        Err(rule) => Err(rule),
    }
}

/// A decimal from which on a slice may be good.
#[tactic(auto, unfolding(object_terms::specs::Scalars::number_value))]
fn read_slice_target(text: &[u8]) -> Result<SliceTarget, Rule>
    ensures { result ≡ number_value slice_target_range text.now }
{
    match number_at(text) {
        Ok(ratio) => in_range(SliceTarget::of(ratio)),
        Err(rule) => Err(rule),
    }
}

/// A decimal that is a threshold.
#[tactic(auto, unfolding(object_terms::specs::Scalars::number_value))]
fn read_threshold(text: &[u8]) -> Result<Threshold, Rule>
    ensures { result ≡ number_value threshold_range text.now }
{
    match number_at(text) {
        Ok(rate) => in_range(Threshold::of(rate)),
        Err(rule) => Err(rule),
    }
}

/// A decimal.
pub struct NumberForm;

impl ReadText for NumberForm {
    type Value = Decimal;

    ghost other = { λ _. rules.NotNumber };

    ghost value = { λ _. number_value every_number };

    ghost spelled = { λ _. number_written every_number };

    fn rule(&self) -> Rule {
        Rule::NotNumber
    }

    fn parse(&self, _alloc: Global, text: &[u8]) -> Result<Result<Decimal, Rule>, AllocError> {
        Ok(read_number(text))
    }
}

/// A target.
pub struct TargetForm;

impl ReadText for TargetForm {
    type Value = Target;

    ghost other = { λ _. rules.NotNumber };

    ghost value = { λ _. number_value target_range };

    ghost spelled = { λ _. number_written target_range };

    fn rule(&self) -> Rule {
        Rule::NotNumber
    }

    fn parse(&self, _alloc: Global, text: &[u8]) -> Result<Result<Target, Rule>, AllocError> {
        Ok(read_target(text))
    }
}

/// The ratio from which on a slice is good.
pub struct SliceTargetForm;

impl ReadText for SliceTargetForm {
    type Value = SliceTarget;

    ghost other = { λ _. rules.NotNumber };

    ghost value = { λ _. number_value slice_target_range };

    ghost spelled = { λ _. number_written slice_target_range };

    fn rule(&self) -> Rule {
        Rule::NotNumber
    }

    fn parse(&self, _alloc: Global, text: &[u8]) -> Result<Result<SliceTarget, Rule>, AllocError> {
        Ok(read_slice_target(text))
    }
}

/// A threshold.
pub struct ThresholdForm;

impl ReadText for ThresholdForm {
    type Value = Threshold;

    ghost other = { λ _. rules.NotNumber };

    ghost value = { λ _. number_value threshold_range };

    ghost spelled = { λ _. number_written threshold_range };

    fn rule(&self) -> Rule {
        Rule::NotNumber
    }

    fn parse(&self, _alloc: Global, text: &[u8]) -> Result<Result<Threshold, Rule>, AllocError> {
        Ok(read_threshold(text))
    }
}

/// How many digits a text begins with.
fn leading_digits(text: &[u8]) -> usize
    ensures count { result ≡ prefix_len is_ascii_digit text.now }
    ensures within { result ≤ length text.now }
{
    text.iter().take_while(|byte| byte.is_ascii_digit()).count()
}

/// Whether a number, if it is one, has at most seven decimals: so its hundredth has at most nine.
fn has_few_decimals(text: &[u8]) -> bool
    ensures { result ≡ has_few_decimals_def text.now }
{
    text.len() - leading_digits(text) <= 8
}

/// A percentage, as the target that its hundredth is.
#[tactic(auto, unfolding(object_terms::specs::Scalars::percent_value))]
fn read_percent(text: &[u8]) -> Result<Target, Rule>
    ensures { result ≡ percent_value text.now }
{
    if !has_few_decimals(text) {
        return Err(Rule::NotNumber);
    }
    match number_at(text) {
        Ok(value) => in_range(Target::of(Decimal::of_billionths(value.billionths() / 100))),
        Err(rule) => Err(rule),
    }
}

/// A percentage, whose hundredth is a target.
pub struct PercentForm;

impl ReadText for PercentForm {
    type Value = Target;

    ghost other = { λ _. rules.NotNumber };

    ghost value = { λ _. percent_value };

    ghost spelled = { λ _. number_written target_range };

    fn rule(&self) -> Rule {
        Rule::NotNumber
    }

    fn parse(&self, _alloc: Global, text: &[u8]) -> Result<Result<Target, Rule>, AllocError> {
        Ok(read_percent(text))
    }
}

/// The duration of a text, or the rule that it breaks.
#[tactic(auto, unfolding(object_terms::specs::Durations::duration_or_rule))]
pub fn duration_at(text: &[u8]) -> Result<Duration, Rule>
    ensures { result ≡ duration_or_rule text.now }
{
    match read_duration(text) {
        Ok(value) => Ok(value),
        Err(DurationFault::TooLong) => Err(Rule::OutOfRange),
        Err(DurationFault::Empty) => Err(Rule::NotDuration),
        Err(DurationFault::BadNumber) => Err(Rule::NotDuration),
        Err(DurationFault::BadUnit) => Err(Rule::NotDuration),
    }
}

/// A duration that is a lookback.
#[tactic(auto, unfolding(object_terms::specs::Durations::duration_value))]
fn read_lookback(text: &[u8]) -> Result<Lookback, Rule>
    ensures { result ≡ duration_value lookback_range text.now }
{
    match duration_at(text) {
        Ok(span) => in_range(Lookback::of(span)),
        Err(rule) => Err(rule),
    }
}

/// A duration that is a wait.
#[tactic(auto, unfolding(object_terms::specs::Durations::duration_value))]
fn read_wait(text: &[u8]) -> Result<AlertAfter, Rule>
    ensures { result ≡ duration_value wait_range text.now }
{
    match duration_at(text) {
        Ok(span) => in_range(AlertAfter::of(span)),
        Err(rule) => Err(rule),
    }
}

/// A duration that is the length of a window.
#[tactic(auto, unfolding(object_terms::specs::Durations::duration_value))]
fn read_window_length(text: &[u8]) -> Result<WindowLength, Rule>
    ensures { result ≡ duration_value window_range text.now }
{
    match duration_at(text) {
        Ok(span) => in_range(WindowLength::of(span)),
        Err(rule) => Err(rule),
    }
}

/// A lookback.
pub struct LookbackForm;

impl ReadText for LookbackForm {
    type Value = Lookback;

    ghost other = { λ _. rules.NotDuration };

    ghost value = { λ _. duration_value lookback_range };

    ghost spelled = { λ _. duration_written lookback_range };

    fn rule(&self) -> Rule {
        Rule::NotDuration
    }

    fn parse(&self, _alloc: Global, text: &[u8]) -> Result<Result<Lookback, Rule>, AllocError> {
        Ok(read_lookback(text))
    }
}

/// A wait.
pub struct WaitForm;

impl ReadText for WaitForm {
    type Value = AlertAfter;

    ghost other = { λ _. rules.NotDuration };

    ghost value = { λ _. duration_value wait_range };

    ghost spelled = { λ _. duration_written wait_range };

    fn rule(&self) -> Rule {
        Rule::NotDuration
    }

    fn parse(&self, _alloc: Global, text: &[u8]) -> Result<Result<AlertAfter, Rule>, AllocError> {
        Ok(read_wait(text))
    }
}

/// The length of a window.
pub struct WindowLengthForm;

impl ReadText for WindowLengthForm {
    type Value = WindowLength;

    ghost other = { λ _. rules.NotDuration };

    ghost value = { λ _. duration_value window_range };

    ghost spelled = { λ _. duration_written window_range };

    fn rule(&self) -> Rule {
        Rule::NotDuration
    }

    fn parse(&self, _alloc: Global, text: &[u8]) -> Result<Result<WindowLength, Rule>, AllocError> {
        Ok(read_window_length(text))
    }
}
