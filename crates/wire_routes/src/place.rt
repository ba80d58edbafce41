//! What paths name.

use exact_fraction::{Label, ZoneName};
use object_terms::Kind;

/// The paths of the routes.
#[derive(Clone, Copy)]
pub enum Route {
    /// `/objects`
    Objects,
    /// `/objects/{kind}/{name}`
    Object,
    /// `/zones/{*name}`
    Zone,
    /// `/samples`
    Samples,
    /// `/exclusions/{id}`
    Exclusion,
    /// `/tick`
    Tick,
    /// `/notices`
    Notices,
    /// `/notices/{n}/take`
    Take,
    /// `/upgrade`
    Upgrade,
    /// `/budgets/{slo}`
    Budgets,
    /// `/burns/{slo}/{objective}`
    Burns,
    /// `/alerts/{slo}/{objective}/{policy}`
    Alerts,
    /// `/entries`
    Entries,
    /// `/samples/{sli}/{source}/{minute}`
    Row,
    /// `/exclusions`
    Exclusions,
    /// `/zones`
    Zones,
    /// `/status`
    Status,
    /// `/sums/{slo}/{objective}`
    Sums,
    /// `/windows/{slo}`
    Windows,
}

/// A route's path with the values of its parts.
#[derive(Clone, Copy)]
pub enum Place {
    Objects,
    Object {
        kind: Kind,
        name: Label,
    },
    Zone {
        name: ZoneName,
    },
    Samples,
    Exclusion {
        id: Label,
    },
    Tick,
    Notices,
    Take {
        number: u32,
    },
    Upgrade,
    Budgets {
        slo: Label,
    },
    Burns {
        slo: Label,
        objective: u32,
    },
    Alerts {
        slo: Label,
        objective: u32,
        policy: Label,
    },
    Entries,
    Row {
        sli: Label,
        source: Label,
        minute: u32,
    },
    Exclusions,
    Zones,
    Status,
    Sums {
        slo: Label,
        objective: u32,
    },
    Windows {
        slo: Label,
    },
}
