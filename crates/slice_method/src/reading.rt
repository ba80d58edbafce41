//! What the amount of a row counts for.
ghost use Rattle.std.specs.Prelude.{◌≡◌, ◌^◌, ◌<◌, ◌≤◌};
ghost use Rattle.slice_method.specs.Readings.{HasForm, counts, counts_of_events, counts_of_value};

use crate::amount::{Amount, Counts, Reading};
use exact_fraction::{Decimal, Op, holds};
use slo_limits::WHOLE;

const NOTHING: Counts = Counts { good: 0, total: 0 };

/// The counts of an amount, by the reading of its indicator and an objective's `op` and value.
pub fn counts_of(reading: Reading, op: Op, value: Decimal, amount: Amount) -> Counts
    requires { HasForm reading amount }
    ensures counts { result ≡ counts reading op value amount }
    ensures part { result.good ≤ result.total }
    ensures few { result.total < 2 ^ 32 }
{
    match amount {
        Amount::Counts { part, total } => {
            counts_of_events(reading, u64::from(part), u64::from(total))
        }
        Amount::Value(measured) => counts_of_value(reading, op, value, measured),
        Amount::Withdrawn => NOTHING,
    }
}

fn counts_of_events(reading: Reading, part: u64, total: u64) -> Counts
    requires { part ≤ total }
    ensures { result ≡ counts_of_events reading part total }
{
    match reading {
        Reading::Good => Counts { good: part, total },
        Reading::Bad => Counts {
            good: total - part,
            total,
        },
        Reading::Threshold | Reading::RawSuccess | Reading::RawFailure => NOTHING,
    }
}

fn counts_of_value(reading: Reading, op: Op, value: Decimal, measured: Decimal) -> Counts
    requires { HasForm reading (Amount.Value measured) }
    ensures { result ≡ counts_of_value reading op value measured }
{
    match reading {
        Reading::Threshold => Counts {
            good: u64::from(holds(op, measured.cmp(&value))),
            total: 1,
        },
        Reading::RawSuccess => Counts {
            good: measured.billionths(),
            total: WHOLE,
        },
        Reading::RawFailure => Counts {
            good: WHOLE - measured.billionths(),
            total: WHOLE,
        },
        Reading::Good | Reading::Bad => NOTHING,
    }
}
