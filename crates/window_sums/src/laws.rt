//! A law about the counts of slices.
ghost use Rattle.std.specs.Prelude.{◌≡◌, ℕ, List};
ghost use Rattle.slice_method.specs.declared.amount.Counts.{Counts};
ghost use Rattle.slice_method.specs.declared.method.Method.{Method};
ghost use Rattle.window_sums.specs.Shares.{AreSmall, Share, slice_counts};
ghost use Rattle.window_sums.specs.Slices.{AreSoundCounts};

/// No work, and a law: where the counts of each slice are the sums of what at most 4,000,000 rows
/// count for, a part of at most 10^9 events each, all slices together have at most 4 * 10^15
/// events, and so has the den of their leaves. So `change` may follow the rows of an office.
pub fn counts_of_rows_are_sound()
    ensures { (method : Method) (counts : ℕ → Counts) (shares : List Share) → AreSmall shares
        → ((slice : ℕ) → counts slice ≡ slice_counts method shares slice)
        → AreSoundCounts method counts }
{}
