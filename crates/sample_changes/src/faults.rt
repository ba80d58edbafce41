//! The rules that a row of a batch can break.
ghost use Rattle.std.specs.Prelude.{◌≡◌, ◌≤◌, length};
ghost use Rattle.slo_limits.specs.declared.TheConstants.{MAX_BATCH_ROWS};
ghost use Rattle.slice_method.specs.declared.Amount.TheVariants as amounts;
ghost use Rattle.record_form.specs.declared.Refusal.TheVariants as refusals;
ghost use Rattle.office_history.specs.Lists.{first_some};
ghost use Rattle.office_history.specs.Objectives.{reading_named as reading_named_def};
ghost use Rattle.office_history.specs.Batches.{amount_fault as amount_fault_def};
ghost use Rattle.office_history.specs.Batches.{conflict_fault as conflict_fault_def};
ghost use Rattle.office_history.specs.Batches.{form_fault as form_fault_def};
ghost use Rattle.office_history.specs.Batches.{row_fault as row_fault_def, rows_faults, when};
ghost use Rattle.office_history.specs.Batches.{version_fault as version_fault_def};

use catalog_measures::reading_named;
use exact_fraction::Decimal;
use record_form::{LimitName, Refusal};
use sample_book::{Row, RowVerdict};
use slice_method::{Amount, Reading};
use slo_catalog::Catalog;
use slo_limits::{MAX_AMOUNT, WHOLE};

/// There would be too much of something.
pub(crate) fn limit(which: LimitName) -> Refusal
    ensures { result ≡ refusals.Limit which }
{
    Refusal::Limit { which }
}

/// The fault of a row's numbers, where they are broken.
fn counts_where(broken: bool, number: u32) -> Option<Refusal>
    ensures { result ≡ when broken (refusals.Counts number) }
{
    if broken {
        Some(Refusal::Counts { row: number })
    } else {
        None
    }
}

/// What a part of a total breaks under a reading.
fn part_fault(reading: Reading, part: u32, total: u32, number: u32) -> Option<Refusal>
    ensures { result ≡ amount_fault_def reading (amounts.Counts part total) number }
{
    let broken = total < part || MAX_AMOUNT < total;
    match reading {
        Reading::Good => counts_where(broken, number),
        Reading::Bad => counts_where(broken, number),
        Reading::Threshold => Some(Refusal::WrongKind { row: number }),
        Reading::RawSuccess => Some(Refusal::WrongKind { row: number }),
        Reading::RawFailure => Some(Refusal::WrongKind { row: number }),
    }
}

/// What a value breaks under a reading.
fn value_fault(reading: Reading, value: Decimal, number: u32) -> Option<Refusal>
    ensures { result ≡ amount_fault_def reading (amounts.Value value) number }
{
    let broken = WHOLE < value.billionths();
    match reading {
        Reading::Good => Some(Refusal::WrongKind { row: number }),
        Reading::Bad => Some(Refusal::WrongKind { row: number }),
        Reading::Threshold => None,
        Reading::RawSuccess => counts_where(broken, number),
        Reading::RawFailure => counts_where(broken, number),
    }
}

/// What an amount breaks under a reading.
fn amount_fault(reading: Reading, amount: Amount, number: u32) -> Option<Refusal>
    ensures { result ≡ amount_fault_def reading amount number }
{
    match amount {
        Amount::Counts { part, total } => part_fault(reading, part, total, number),
        Amount::Value(value) => value_fault(reading, value, number),
        Amount::Withdrawn => None,
    }
}

/// What an amount breaks in an office that is upgraded or not.
fn version_fault(upgraded: bool, amount: Amount, number: u32) -> Option<Refusal>
    ensures { result ≡ version_fault_def upgraded amount number }
{
    match amount {
        Amount::Withdrawn => {
            if upgraded {
                None
            } else {
                Some(Refusal::Version { row: number })
            }
        }
        Amount::Counts { .. } => None,
        Amount::Value(_) => None,
    }
}

/// What a row breaks by itself.
fn form_fault(upgraded: bool, catalog: &Catalog, row: &Row, number: u32) -> Option<Refusal>
    ensures { result ≡ form_fault_def upgraded (reading_named_def catalog.now row.now.sli) row.now
        number }
{
    match reading_named(catalog, row.sli) {
        Some(reading) => match version_fault(upgraded, row.amount, number) {
            Some(fault) => Some(fault),
            None => amount_fault(reading, row.amount, number),
        },
        None => Some(Refusal::UnknownSli {
            name: row.sli,
            row: number,
        }),
    }
}

/// What a row breaks that is in conflict.
fn conflict_fault(verdict: &RowVerdict, number: u32) -> Option<Refusal>
    ensures { result ≡ conflict_fault_def verdict.now number }
{
    match verdict {
        RowVerdict::Conflict(kept) => Some(Refusal::RowConflict {
            amount: kept.amount,
            revision: kept.revision,
            row: number,
        }),
        _ => None,
    }
}

/// The first rule that a row breaks, as the row of this number of its batch.
fn row_fault(
    upgraded: bool,
    origin: u32,
    moment: u32,
    catalog: &Catalog,
    row: &Row,
    verdict: &RowVerdict,
    number: u32,
) -> Option<Refusal>
    ensures { result ≡ row_fault_def upgraded origin moment catalog.now row.now verdict.now
        number }
{
    if let Some(fault) = form_fault(upgraded, catalog, row, number) {
        return Some(fault);
    }
    if row.minute < origin {
        return Some(Refusal::Early {
            minute: row.minute,
            origin,
            row: number,
        });
    }
    if moment <= row.minute {
        return Some(Refusal::OpenMinute {
            minute: row.minute,
            moment,
            row: number,
        });
    }
    conflict_fault(verdict, number)
}

/// The first rule that a row of a batch breaks, where each becomes this behind those before it.
pub(crate) fn batch_fault(
    upgraded: bool,
    origin: u32,
    moment: u32,
    catalog: &Catalog,
    rows: &[Row],
    verdicts: &[RowVerdict],
) -> Option<Refusal>
    requires each { length verdicts.now ≡ length rows.now }
    requires few { length rows.now ≤ MAX_BATCH_ROWS }
    ensures { result ≡ first_some (rows_faults upgraded origin moment catalog.now 1 rows.now
        verdicts.now) }
{
    for (place, row) in rows.iter().enumerate() {
        let fault = row_fault(
            upgraded,
            origin,
            moment,
            catalog,
            row,
            &verdicts[place],
            place as u32 + 1,
        );
        if fault.is_some() {
            return fault;
        }
    }
    None
}
