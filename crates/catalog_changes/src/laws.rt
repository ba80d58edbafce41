//! Laws over legal histories.
ghost use Rattle.catalog_changes.specs.Laws.{BeginsLegally, EachMayFollow, ZoneActsOnce};

/// The first entries of a legal history are a legal history, and each entry may follow those before
/// it.
pub fn a_history_begins_legally()
    ensures begins { BeginsLegally }
    ensures each { EachMayFollow }
{}

/// A zone that was put in a legal history is Same at any moment from the present on.
pub fn a_zone_acts_once()
    ensures { ZoneActsOnce }
{}
