//! The rows of `budget`: the good and total events of one source's minute.
ghost use Rattle.std.specs.Prelude.{◌≡◌, ◌≤◌};
ghost use Rattle.slo_limits.specs.declared.TheConstants.{MAX_AMOUNT};
ghost use Rattle.event_fields.specs.Events.{AreCounted};
ghost use Rattle.budget_command.specs.Records.{BUDGET, IsCounted, good_of, row_of, total_of};

use event_fields::Event;
use exact_fraction::{Label, Leaf, read_label};
use sample_book::Row;
use slice_method::Amount;

/// The one indicator under which the rows of an input are kept.
pub fn indicator() -> Label
    ensures { result ≡ BUDGET }
{
    read_label(b"budget").unwrap()
}

/// A number of events, as a row keeps it.
pub(crate) fn events_kept(number: u64) -> u32
    requires { number ≤ MAX_AMOUNT }
    ensures { result ≡ number }
{
    number as u32
}

/// The row of an event. The indicator is handed in, so that it isn't read anew for each row.
pub(crate) fn row_of(sli: Label, event: &Event) -> Row
    requires indicator { sli ≡ BUDGET }
    requires counted { AreCounted MAX_AMOUNT event.now.good event.now.total }
    ensures row { result ≡ row_of event.now }
    ensures counted { IsCounted result }
{
    Row {
        sli,
        source: event.source,
        minute: event.minute,
        revision: event.revision,
        amount: Amount::Counts {
            part: events_kept(event.good),
            total: events_kept(event.total),
        },
    }
}

/// The good and total events of a row.
pub fn events_of(row: &Row) -> Leaf
    ensures good { result.num ≡ good_of row.now }
    ensures total { result.den ≡ total_of row.now }
{
    match row.amount {
        Amount::Counts { part, total } => Leaf {
            num: u64::from(part),
            den: u64::from(total),
        },
        Amount::Value(_) => Leaf { num: 0, den: 0 },
        Amount::Withdrawn => Leaf { num: 0, den: 0 },
    }
}
