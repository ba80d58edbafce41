//! What stands under a name in a catalog.
ghost use Rattle.std.specs.Prelude.{◌≡◌, IfSome};
ghost use Rattle.std.specs.Option.{option_copied};
ghost use Rattle.catalog_terms.specs.Bindings.{policy_named as policy_named_def};
ghost use Rattle.catalog_terms.specs.References.{names_in as names_in_def};
ghost use Rattle.object_laws.specs.Ranges.{HasObjectives, IsWindow};
ghost use Rattle.office_history.specs.Alerts.{condition_named as condition_named_def};
ghost use Rattle.office_history.specs.Objectives.{reading_named as reading_named_def};
ghost use Rattle.office_history.specs.Objectives.{slo_named as slo_named_def};

use exact_fraction::Label;
use object_laws::laws;
use object_terms::{AlertCondition, AlertPolicy, Kind, Names, Slo};
use office_history::reading_of;
use slice_method::Reading;
use slo_catalog::{Catalog, condition_in, policy_in, sli_in, slo_in};

/// The SLO of a name: none exactly where there is no such member.
pub fn slo_named(catalog: &Catalog, name: Label) -> Option<&Slo>
    ensures there { option_copied result ≡ slo_named_def catalog.now name }
    ensures ranges { IfSome result (λ slo. HasObjectives slo.now) }
    ensures window { IfSome result (λ slo. IsWindow slo.now.time_window) }
{
    laws::objectives_are_in_range();
    laws::windows_are_in_range();
    slo_in(&catalog.find(Kind::Slo, name)?.body)
}

/// How the amounts of the indicator of a name are read: none exactly where there is no such member.
pub fn reading_named(catalog: &Catalog, name: Label) -> Option<Reading>
    ensures { result ≡ reading_named_def catalog.now name }
{
    let sli = sli_in(&catalog.find(Kind::Sli, name)?.body)?;
    Some(reading_of(&sli.metric))
}

/// The alert policy of a name: none exactly where there is no such member.
pub(crate) fn policy_named(catalog: &Catalog, name: Label) -> Option<&AlertPolicy>
    ensures { option_copied result ≡ policy_named_def catalog.now name }
{
    policy_in(&catalog.find(Kind::AlertPolicy, name)?.body)
}

/// The alert condition of a name: none exactly where there is no such member.
pub(crate) fn condition_named(catalog: &Catalog, name: Label) -> Option<&AlertCondition>
    ensures { option_copied result ≡ condition_named_def catalog.now name }
{
    condition_in(&catalog.find(Kind::AlertCondition, name)?.body)
}

/// The names of a list that may be omitted.
pub(crate) fn names_in(names: &Option<Names>) -> &[Label]
    ensures { result.now ≡ names_in_def names.now }
{
    match names {
        Some(names) => names.as_slice(),
        None => &[],
    }
}
