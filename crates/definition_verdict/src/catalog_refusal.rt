//! The faults of the catalog as refusals.
ghost use Rattle.std.specs.Prelude.{◌≡◌};
ghost use Rattle.office_history.specs.Definitions.{catalog_refusal as catalog_refusal_def};
ghost use Rattle.office_history.specs.Definitions.{limit_name as limit_name_def};

use catalog_terms::{CatalogFault, CatalogLimit};
use record_form::{LimitName, Refusal};

/// The name of a limit of the catalog, as a refusal has it.
fn limit_name(limit: CatalogLimit) -> LimitName
    ensures { result ≡ limit_name_def limit }
{
    match limit {
        CatalogLimit::Objects => LimitName::Objects,
        CatalogLimit::Catalog => LimitName::Catalog,
        CatalogLimit::Slis => LimitName::Slis,
        CatalogLimit::Slos => LimitName::Slos,
        CatalogLimit::Bindings => LimitName::Bindings,
    }
}

/// A fault of the catalog as a refusal.
pub(crate) fn catalog_refusal(fault: CatalogFault) -> Refusal
    ensures { result ≡ catalog_refusal_def fault }
{
    match fault {
        CatalogFault::Reserved { name } => Refusal::ReservedPolicy { name },
        CatalogFault::DuplicateInText { kind, name } => Refusal::Duplicate { kind, name },
        CatalogFault::Unresolved {
            from_kind,
            from_name,
            kind,
            name,
        } => Refusal::Unresolved {
            from_kind,
            from_name,
            kind,
            name,
        },
        CatalogFault::NeedsOp { slo, objective } => Refusal::NeedsOp { objective, slo },
        CatalogFault::Limit(limit) => Refusal::Limit {
            which: limit_name(limit),
        },
    }
}
