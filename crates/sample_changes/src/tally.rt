//! What becomes of the rows of a batch, counted.
ghost use Rattle.std.specs.Prelude.{◌≡◌, ◌+◌, ◌<◌, ◌≤◌, ◌^◌, length};
ghost use Rattle.slo_limits.specs.declared.TheConstants.{MAX_BATCH_ROWS};
ghost use Rattle.office_derived.specs.Tallies.{tally_of as tally_of_def};
ghost use Rattle.sample_changes.specs.Works.{tally_with as tally_with_def};

use office_derived::BatchTally;
use sample_book::RowVerdict;

/// One row more.
fn tally_with(tally: BatchTally, verdict: &RowVerdict) -> BatchTally
    requires { tally.new + tally.newer + tally.repeated + tally.superseded < 2 ^ 31 }
    ensures { result ≡ tally_with_def tally verdict.now }
{
    match verdict {
        RowVerdict::New => BatchTally {
            new: tally.new + 1,
            newer: tally.newer,
            repeated: tally.repeated,
            superseded: tally.superseded,
        },
        RowVerdict::Newer(_) => BatchTally {
            new: tally.new,
            newer: tally.newer + 1,
            repeated: tally.repeated,
            superseded: tally.superseded,
        },
        RowVerdict::Repeated => BatchTally {
            new: tally.new,
            newer: tally.newer,
            repeated: tally.repeated + 1,
            superseded: tally.superseded,
        },
        RowVerdict::Superseded(_) => BatchTally {
            new: tally.new,
            newer: tally.newer,
            repeated: tally.repeated,
            superseded: tally.superseded + 1,
        },
        RowVerdict::Conflict(_) => tally,
    }
}

/// How many rows became what.
pub(crate) fn tally_of(verdicts: &[RowVerdict]) -> BatchTally
    requires { length verdicts.now ≤ MAX_BATCH_ROWS }
    ensures all { result ≡ tally_of_def verdicts.now }
    ensures few { result.new + result.newer ≤ MAX_BATCH_ROWS }
{
    let mut tally = BatchTally {
        new: 0,
        newer: 0,
        repeated: 0,
        superseded: 0,
    };
    for verdict in verdicts {
        tally = tally_with(tally, verdict);
    }
    tally
}
