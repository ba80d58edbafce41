//! What holds of feeds: a law without code.
ghost use Rattle.entry_records.specs.Laws.{FedAreMost};

/// A feed has as many records as fit, and one at least where there is one.
pub fn fed_are_most()
    ensures { FedAreMost }
{}
