//! What holds of records: laws without code, for whoever keeps them.
ghost use Rattle.record_form.specs.Laws.{EntriesAreReadBack, HistoriesAreReadBack};
ghost use Rattle.record_form.specs.Laws.{NoBytesAreNoHistory, NoRecordBeginsAnother, OneRecordMore};
ghost use Rattle.record_form.specs.Laws.{RecordsAddUp, RecordsHaveSizes, UpgradesHaveTheirKind};

/// An entry is read back from its record, whatever follows.
pub fn an_entry_is_read_back()
    ensures { EntriesAreReadBack }
{}

/// No record is a proper prefix of another.
pub fn no_record_begins_another()
    ensures { NoRecordBeginsAnother }
{}

/// A record has 5 bytes at least, and at most as many as a journal takes.
pub fn records_have_sizes()
    ensures { RecordsHaveSizes }
{}

/// The history is read back from the records of its entries, one behind another.
pub fn a_history_is_read_back()
    ensures { HistoriesAreReadBack }
{}

/// Records with one more behind them are those of the history with that entry at its end.
pub fn one_record_more()
    ensures { OneRecordMore }
{}

/// The records of a history are as long as those of its entries together.
pub fn records_add_up()
    ensures { RecordsAddUp }
{}

/// No bytes stand for the empty history.
pub fn no_bytes_are_no_history()
    ensures { NoBytesAreNoHistory }
{}

/// The record of an upgrade has a kind that none had before, so a program from before upgrades
/// takes it for no record.
pub fn an_upgrade_has_its_kind()
    ensures { UpgradesHaveTheirKind }
{}
