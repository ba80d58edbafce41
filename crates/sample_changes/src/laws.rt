//! What comes again changes nothing.
ghost use Rattle.sample_changes.specs.Once.{BatchActsOnce, ExcludeActsOnce, LiftActsOnce};
ghost use Rattle.sample_changes.specs.Once.{UpgradeActsOnce};

/// A batch that is an entry of a legal history leaves all as it is when it comes again, where its
/// indicators are still read as they were and the days of the history are within their limit.
pub fn a_batch_acts_once()
    ensures { BatchActsOnce }
{}

/// An exclusion that is an entry of a legal history leaves all as it is when it comes again; where
/// its id was lifted it is refused as withdrawn.
pub fn an_exclusion_acts_once()
    ensures { ExcludeActsOnce }
{}

/// A lifting that is an entry of a legal history leaves all as it is when it comes again.
pub fn a_lifting_acts_once()
    ensures { LiftActsOnce }
{}

/// An upgrade that is an entry of a legal history leaves all as it is when it comes again.
pub fn an_upgrade_acts_once()
    ensures { UpgradeActsOnce }
{}
