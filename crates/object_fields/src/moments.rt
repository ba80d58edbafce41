//! Scalars: civil moments.
ghost use Rattle.std.specs.Prelude.{◌≡◌};
ghost use Rattle.yaml_terms.specs.Spelling.{quoted};
ghost use Rattle.zone_calendar.specs.CivilText.{civil_text};
ghost use Rattle.zone_calendar.specs.CivilRead.{civil_read};
ghost use Rattle.object_terms.specs.Moments.{moment_value};
ghost use Rattle.object_terms.specs.declared.fault.Rule.TheVariants as rules;

use crate::forms::ReadText;
use object_terms::Rule;
use std::alloc::{AllocError, Global};
use zone_calendar::{Civil, read_civil};

/// The civil moment of a text, if it is one.
fn civil_at(text: &[u8]) -> Option<Civil>
    ensures { result ≡ civil_read text.now }
{
    read_civil(text)
}

/// The civil moment of a text, or the rule that it breaks.
#[tactic(auto, unfolding(object_terms::specs::Moments::moment_value))]
fn read_moment(text: &[u8]) -> Result<Civil, Rule>
    ensures { result ≡ moment_value text.now }
{
    match civil_at(text) {
        Some(moment) => Ok(moment),
        None => Err(Rule::NotMoment),
    }
}

/// A civil moment.
pub struct MomentForm;

impl ReadText for MomentForm {
    type Value = Civil;

    ghost other = { λ _. rules.NotMoment };

    ghost value = { λ _. moment_value };

    ghost spelled = { λ _ m. quoted (civil_text m) };

    fn rule(&self) -> Rule {
        Rule::NotMoment
    }

    fn parse(&self, _alloc: Global, text: &[u8]) -> Result<Result<Civil, Rule>, AllocError> {
        Ok(read_moment(text))
    }
}
