//! A file as a journal sees it: what a read gives, what a stop may leave, and how often it failed.
ghost use Rattle.std.specs.Prelude.{◌≡◌, ◌≤◌, length, IfOk, OnOk, IfSome, is_some};
ghost use Rattle.office_outside.specs.Faults.{HasCauseBy};
ghost use Rattle.office_outside.specs.Disk.{OnlyAsRead, NoMore, Follows, Torn, Elapses, IsWritten};
ghost use Rattle.office_outside.specs.Disk.{IsRead, CountsNow, OnlyNow, ReadsAnImage};
ghost use Rattle.office_outside.specs.Senses.{DiskSenses};

use crate::Failed;

/// One file on a disk. A stop, as of the machine or of its current, may come at each moment, and
/// leaves one of the disk's images.
///
/// Between two syncs each written range and the part past the file's old end may hold any bytes in
/// an image; bytes outside stay. An image ends nowhere before the end that the file had at the last
/// sync, and nowhere after the greater of that end and the greatest end of a write since then.
pub trait Disk {
    /// What a proof sees of it: what a read gives, what a stop may leave, the moment, its faults.
    ghost senses: { DiskSenses Self };

    /// Reads from `at` on. Fewer bytes than asked come only where the file ends.
    fn read_at(&mut self, at: u64, piece: &mut [u8]) -> Result<usize, Failed>
        ensures count { IfOk result (λ n. n ≤ length piece.new) }
        ensures bytes { IfOk result (λ n. IfSome (senses.content self.old)
            (λ file. IsRead at file piece.new n)) }
        ensures content { senses.content self.new ≡ senses.content self.old }
        ensures crash { NoMore (senses.images self.old) (senses.images self.new) }
        ensures time { Elapses senses self.old self.new }
        ensures cause { HasCauseBy senses.faults self.old self.new result };

    /// Writes all of the piece. A write that fails may have done any part of its work.
    fn write_at(&mut self, at: u64, piece: &[u8]) -> Result<(), Failed>
        ensures written { OnOk result (IsWritten at piece.now (senses.content self.old)
            (senses.content self.new)) }
        ensures tells { is_some (senses.content self.new) ≡ is_some (senses.content self.old) }
        ensures crash { Follows (Torn at (length piece.now)) (senses.images self.old)
            (senses.images self.new) }
        ensures time { Elapses senses self.old self.new }
        ensures cause { HasCauseBy senses.faults self.old self.new result };

    /// After it, a stop leaves what a read gives. A sync that fails may have done any part of its
    /// work.
    fn sync(&mut self) -> Result<(), Failed>
        ensures durable { OnOk result (OnlyAsRead (senses.content self.old)
            (senses.images self.new)) }
        ensures content { senses.content self.new ≡ senses.content self.old }
        ensures crash { NoMore (senses.images self.old) (senses.images self.new) }
        ensures time { Elapses senses self.old self.new }
        ensures cause { HasCauseBy senses.faults self.old self.new result };

    /// This moment is one of those since an earlier one.
    ghost counts_now: { CountsNow senses };

    /// Since this moment there is no other.
    ghost only_now: { OnlyNow senses };

    /// The disk as it reads is one of its images.
    ghost as_read: { ReadsAnImage senses };
}
