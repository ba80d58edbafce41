//! How much an office may have, by its version.
ghost use Rattle.std.specs.Prelude.{◌≡◌, ◌≤◌};
ghost use Rattle.slo_limits.specs.declared.TheConstants.{MAX_UPGRADED_CELLS as greatest_cells};
ghost use Rattle.slo_limits.specs.declared.TheConstants.{MAX_UPGRADED_ROWS as greatest_rows};
ghost use Rattle.office_history.specs.Versions.{most_cells, most_rows};

use slo_limits::{MAX_ACCEPTED_ROWS, MAX_CELLS, MAX_UPGRADED_CELLS, MAX_UPGRADED_ROWS};

/// The most cells of an office.
pub fn cell_limit(upgraded: bool) -> u32
    ensures most { result ≡ most_cells upgraded }
    ensures few { result ≤ greatest_cells }
{
    if upgraded {
        MAX_UPGRADED_CELLS
    } else {
        MAX_CELLS
    }
}

/// The most rows that an office takes, corrections among them.
pub fn row_limit(upgraded: bool) -> u32
    ensures most { result ≡ most_rows upgraded }
    ensures few { result ≤ greatest_rows }
{
    if upgraded {
        MAX_UPGRADED_ROWS
    } else {
        MAX_ACCEPTED_ROWS
    }
}
