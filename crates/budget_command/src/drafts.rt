//! Rows of lines, drafted where the last row of their source stands.
ghost use Rattle.std.specs.Prelude.{◌≡◌, ◌<◌, ◌≤◌, IfSome};
ghost use Rattle.slo_limits.specs.declared.TheConstants.{MAX_AMOUNT};
ghost use Rattle.event_fields.specs.Events.{AreCounted};
ghost use Rattle.event_lines.specs.Lines.{event_with};
ghost use Rattle.budget_command.specs.Records.{BUDGET, IsCounted, row_of};
ghost use Rattle.budget_command.specs.Tables.{IsDraft};

use crate::row::{events_kept, indicator};
use event_fields::Sources;
use event_lines::EventLine;
use exact_fraction::{Label, read_label};
use sample_book::Row;
use slice_method::Amount;

/// How many rows are remembered.
const PLACES: usize = 64;

/// Rows of the sources that came last, each at the place of its source. A line of the same source
/// changes the row's numbers alone, so that no label is copied for it. Nothing rests on them.
#[derive(Drop)]
pub(crate) struct Drafts {
    pub(crate) rows: [Row; PLACES],
    /// The sources of lines that are read field by field.
    pub(crate) sources: Sources,
}

impl Drafts {
    /// No line was read. The places hold rows of a source that is there.
    pub(crate) fn new() -> Drafts {
        let label = indicator();
        let row = Row {
            sli: label,
            source: label,
            minute: 0,
            revision: 0,
            amount: Amount::Withdrawn,
        };
        Drafts {
            rows: [row; PLACES],
            sources: Sources::new(),
        }
    }

    /// The row of a line; none where the line's source is no label.
    pub(crate) fn draft(&mut self, sli: &Label, line: &EventLine) -> Option<&Row>
        requires indicator { sli.now ≡ BUDGET }
        requires counted { AreCounted MAX_AMOUNT line.now.good line.now.total }
        ensures { IfSome result (λ row. IsDraft line.now row.now) }
    {
        let row = &mut self.rows[place_of(line.source)];
        if row.source.as_bytes() != line.source {
            row.source = read_label(line.source)?;
        }
        put_numbers(row, sli, line);
        Some(row)
    }
}

/// Puts the numbers of a line into a row of its source.
fn put_numbers(row: &mut Row, sli: &Label, line: &EventLine)
    requires indicator { sli.now ≡ BUDGET }
    requires counted { AreCounted MAX_AMOUNT line.now.good line.now.total }
    ensures row { row.new ≡ row_of (event_with row.old.source line.now) }
    ensures counted { IsCounted row.new }
{
    row.sli = *sli;
    row.minute = line.minute;
    row.revision = line.revision;
    row.amount = Amount::Counts {
        part: events_kept(line.good),
        total: events_kept(line.total),
    };
}

/// Texts of a few sources mostly differ in their length, or in their first or last byte.
fn place_of(text: &[u8]) -> usize
    ensures { result < PLACES }
{
    let first = text.first().copied().unwrap_or(0);
    let last = text.last().copied().unwrap_or(0);
    (text.len() % PLACES + first as usize + 7 * last as usize) % PLACES
}
