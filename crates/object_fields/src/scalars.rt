//! Scalars: texts, names, words and booleans.
ghost use Rattle.std.specs.Prelude.{◌≡◌, length, MatchResult, Ok, Err, cond, codes};
ghost use Rattle.std.specs.List.{list_all};
ghost use Rattle.std.specs.Str.{chars};
ghost use Rattle.yaml_terms.specs.Spelling.{word, quoted};
ghost use Rattle.object_terms.specs.Scalars.{text_value, description_value, name_value, zone_value};
ghost use Rattle.object_terms.specs.Scalars.{version_text, version_value, kind_word, kind_value};
ghost use Rattle.object_terms.specs.Scalars.{only_kind_value, op_word, op_value, boolean_value};
ghost use Rattle.object_terms.specs.Scalars.{is_name_byte as is_name_byte_def};
ghost use Rattle.object_terms.specs.Scalars.{is_object_name as is_object_name_def};
ghost use Rattle.object_terms.specs.declared.fault.Rule.TheVariants as rules;

use crate::fields::{is_among, utf8_text};
use crate::forms::ReadText;
use exact_fraction::{Label, Op, Text, ZoneName, read_label, read_zone_name};
use object_terms::{Kind, Rule, is_word};
use std::alloc::{AllocError, Global};

/// The most characters of a description.
const MOST_CHARACTERS: usize = 1050;

/// The text of a scalar, which is UTF-8.
#[tactic(auto, unfolding(object_terms::specs::Scalars::text_value))]
fn read_text(bytes: &[u8]) -> Result<&str, Rule>
    ensures { MatchResult result (λ t. text_value bytes.now ≡ Ok t.now)
        (λ rule. text_value bytes.now ≡ Err rule) }
{
    match utf8_text(bytes) {
        Some(text) => Ok(text),
        None => Err(Rule::NotText),
    }
}

/// A text.
pub struct TextForm;

impl ReadText for TextForm {
    type Value = Text;

    ghost other = { λ _. rules.NotText };

    ghost value = { λ _. text_value };

    ghost spelled = { λ _. quoted };

    fn rule(&self) -> Rule {
        Rule::NotText
    }

    fn parse(&self, alloc: Global, text: &[u8]) -> Result<Result<Text, Rule>, AllocError> {
        match read_text(text) {
            Ok(text) => Ok(Ok(Text::from_string(String::from_str(alloc, text)?))),
            Err(rule) => Ok(Err(rule)),
        }
    }
}

/// How many characters a text has.
fn characters(text: &str) -> usize
    ensures { result ≡ length (chars text.now) }
{
    text.chars().count()
}

/// The text of a scalar, which has few characters.
#[tactic(auto, unfolding(object_terms::specs::Scalars::description_value))]
fn read_description(bytes: &[u8]) -> Result<&str, Rule>
    ensures { MatchResult result (λ t. description_value bytes.now ≡ Ok t.now)
        (λ rule. description_value bytes.now ≡ Err rule) }
{
    let Some(text) = utf8_text(bytes) else {
        return Err(Rule::NotText);
    };
    if characters(text) <= MOST_CHARACTERS {
        Ok(text)
    } else {
        Err(Rule::TooLong)
    }
}

/// A description.
pub struct DescriptionForm;

impl ReadText for DescriptionForm {
    type Value = Text;

    ghost other = { λ _. rules.NotText };

    ghost value = { λ _. description_value };

    ghost spelled = { λ _. quoted };

    fn rule(&self) -> Rule {
        Rule::NotText
    }

    fn parse(&self, alloc: Global, text: &[u8]) -> Result<Result<Text, Rule>, AllocError> {
        match read_description(text) {
            Ok(text) => Ok(Ok(Text::from_string(String::from_str(alloc, text)?))),
            Err(rule) => Ok(Err(rule)),
        }
    }
}

/// Whether a byte may stand in the name of an object.
fn is_name_byte(byte: u8) -> bool
    ensures { result ≡ is_name_byte_def byte }
{
    byte.is_ascii_lowercase() || byte.is_ascii_digit() || byte == b'-'
}

/// Whether each byte may stand in the name of an object.
fn all_name_bytes(text: &[u8]) -> bool
    ensures { result ≡ list_all is_name_byte_def text.now }
{
    text.iter().all(|byte| is_name_byte(*byte))
}

/// Whether a text is the name of an object.
fn is_object_name(text: &[u8]) -> bool
    ensures { result ≡ is_object_name_def text.now }
{
    1 <= text.len()
        && text.len() <= 63
        && all_name_bytes(text)
        && text[0] != b'-'
        && text[text.len() - 1] != b'-'
}

/// The name of an object, if the text is one.
#[tactic(auto, unfolding(object_terms::specs::Scalars::name_value))]
fn read_name(text: &[u8]) -> Result<Label, Rule>
    ensures { result ≡ name_value text.now }
{
    if !is_object_name(text) {
        return Err(Rule::BadName);
    }
    // Each name of an object is a label.
    match read_label(text) {
        Some(name) => Ok(name),
        None => Err(Rule::BadName),
    }
}

/// The name of an object.
pub struct NameForm;

impl ReadText for NameForm {
    type Value = Label;

    ghost other = { λ _. rules.BadName };

    ghost value = { λ _. name_value };

    ghost spelled = { λ _. quoted };

    fn rule(&self) -> Rule {
        Rule::BadName
    }

    fn parse(&self, _alloc: Global, text: &[u8]) -> Result<Result<Label, Rule>, AllocError> {
        Ok(read_name(text))
    }
}

/// The name of a time zone, if the text is one.
#[tactic(auto, unfolding(object_terms::specs::Scalars::zone_value))]
fn read_zone(text: &[u8]) -> Result<ZoneName, Rule>
    ensures { result ≡ zone_value text.now }
{
    match read_zone_name(text) {
        Some(name) => Ok(name),
        None => Err(Rule::BadName),
    }
}

/// The name of a time zone.
pub struct ZoneForm;

impl ReadText for ZoneForm {
    type Value = ZoneName;

    ghost other = { λ _. rules.BadName };

    ghost value = { λ _. zone_value };

    ghost spelled = { λ _. quoted };

    fn rule(&self) -> Rule {
        Rule::BadName
    }

    fn parse(&self, _alloc: Global, text: &[u8]) -> Result<Result<ZoneName, Rule>, AllocError> {
        Ok(read_zone(text))
    }
}

/// Nothing but that the text is the one version that is read.
#[tactic(auto, unfolding(object_terms::specs::Scalars::version_value))]
fn read_version(text: &[u8]) -> Result<(), Rule>
    ensures { result ≡ version_value text.now }
{
    if is_word(text, "openslo/v1") {
        Ok(())
    } else {
        Err(Rule::BadVersion)
    }
}

/// The one version that is read.
pub struct VersionForm;

impl ReadText for VersionForm {
    type Value = ();

    ghost other = { λ _. rules.BadVersion };

    ghost value = { λ _. version_value };

    ghost spelled = { λ _ _. word version_text };

    fn rule(&self) -> Rule {
        Rule::BadVersion
    }

    fn parse(&self, _alloc: Global, text: &[u8]) -> Result<Result<(), Rule>, AllocError> {
        Ok(read_version(text))
    }
}

/// The kind of a text, if it is one.
#[tactic(auto, unfolding(object_terms::specs::Scalars::kind_value))]
fn read_kind(text: &[u8]) -> Result<Kind, Rule>
    ensures { result ≡ kind_value text.now }
{
    match Kind::of_word(text) {
        Some(kind) => Ok(kind),
        None => Err(Rule::BadKind),
    }
}

/// A kind.
pub struct KindForm;

impl ReadText for KindForm {
    type Value = Kind;

    ghost other = { λ _. rules.BadKind };

    ghost value = { λ _. kind_value };

    ghost spelled = { λ _ k. word (kind_word k) };

    fn rule(&self) -> Rule {
        Rule::BadKind
    }

    fn parse(&self, _alloc: Global, text: &[u8]) -> Result<Result<Kind, Rule>, AllocError> {
        Ok(read_kind(text))
    }
}

/// Nothing but that the text is the word of that kind.
#[tactic(auto, unfolding(object_terms::specs::Scalars::only_kind_value))]
fn read_only_kind(text: &[u8], word: Kind) -> Result<(), Rule>
    ensures { result ≡ only_kind_value word text.now }
{
    if is_word(text, word.word()) {
        Ok(())
    } else {
        Err(Rule::BadKind)
    }
}

/// The word of one kind.
#[derive(Clone, Copy)]
pub(crate) struct OnlyKindForm {
    pub(crate) kind: Kind,
}

impl ReadText for OnlyKindForm {
    type Value = ();

    ghost other = { λ _. rules.BadKind };

    ghost value = { λ s. only_kind_value s.kind };

    ghost spelled = { λ s _. word (kind_word s.kind) };

    fn rule(&self) -> Rule {
        Rule::BadKind
    }

    fn parse(&self, _alloc: Global, text: &[u8]) -> Result<Result<(), Rule>, AllocError> {
        Ok(read_only_kind(text, self.kind))
    }
}

/// The comparison of a text, if it is one.
#[tactic(auto, unfolding(object_terms::specs::Scalars::op_value))]
fn read_op(text: &[u8]) -> Result<Op, Rule>
    ensures { result ≡ op_value text.now }
{
    if is_word(text, "lte") {
        Ok(Op::Lte)
    } else if is_word(text, "gte") {
        Ok(Op::Gte)
    } else if is_word(text, "lt") {
        Ok(Op::Lt)
    } else if is_word(text, "gt") {
        Ok(Op::Gt)
    } else {
        Err(Rule::BadWord)
    }
}

/// A comparison.
pub struct OpForm;

impl ReadText for OpForm {
    type Value = Op;

    ghost other = { λ _. rules.BadWord };

    ghost value = { λ _. op_value };

    ghost spelled = { λ _ o. word (op_word o) };

    fn rule(&self) -> Rule {
        Rule::BadWord
    }

    fn parse(&self, _alloc: Global, text: &[u8]) -> Result<Result<Op, Rule>, AllocError> {
        Ok(read_op(text))
    }
}

/// The boolean of a text, in any of its spellings (YAML 1.2.2, section 10.3.2).
#[tactic(auto, unfolding(object_terms::specs::Scalars::boolean_value))]
fn read_boolean(text: &[u8]) -> Result<bool, Rule>
    ensures { result ≡ boolean_value text.now }
{
    if is_among(&["true", "True", "TRUE"], text) {
        Ok(true)
    } else if is_among(&["false", "False", "FALSE"], text) {
        Ok(false)
    } else {
        Err(Rule::NotBool)
    }
}

/// A boolean.
pub struct BooleanForm;

impl ReadText for BooleanForm {
    type Value = bool;

    ghost other = { λ _. rules.NotBool };

    ghost value = { λ _. boolean_value };

    ghost spelled = { λ _ b. word (cond b (codes "true") (codes "false")) };

    fn rule(&self) -> Rule {
        Rule::NotBool
    }

    fn parse(&self, _alloc: Global, text: &[u8]) -> Result<Result<bool, Rule>, AllocError> {
        Ok(read_boolean(text))
    }
}
