//! One row's share exchanged for another.
ghost use Rattle.std.specs.Prelude.{◌≡◌, ◌≢◌, ℕ, List, IsTrue};
ghost use Rattle.window_sums.specs.Shares.{IsSumOf, Share};
ghost use Rattle.window_sums.specs.Slices.{counts_of, day_of, has_day, slice_of};
ghost use Rattle.kept_sums.specs.Replacing.{MayReplace, among};

use slice_method::Counts;
use window_sums::WindowSums;

/// Takes what a row counted for from the slice of a minute, and adds what another counts for.
pub(crate) fn exchange(sums: &mut WindowSums, minute: u32, old: Counts, new: Counts)
    requires day { old ≢ new → IsTrue (has_day sums.old (day_of minute)) }
    requires may { (before : List Share) × (after : List Share)
        × MayReplace sums.old minute old new before after }
    ensures method { sums.new.method ≡ sums.old.method }
    ensures counted { (before after : List Share) → IsSumOf sums.old (among before minute old after)
        → IsSumOf sums.new (among before minute new after) }
    ensures days { (day : ℕ) → has_day sums.new day ≡ has_day sums.old day }
    ensures touched { (slice : ℕ) → slice ≢ slice_of sums.old.method minute
        → counts_of sums.new slice ≡ counts_of sums.old slice }
    ensures same { old ≡ new → (slice : ℕ) → counts_of sums.new slice ≡ counts_of sums.old slice }
{
    if old != new {
        sums.change(minute, old, new);
    }
}
