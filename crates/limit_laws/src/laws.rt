//! The number of each limit, in decimal digits.
ghost use Rattle.std.specs.Prelude.{◌≡◌};
ghost use Rattle.message_heads.specs.declared.reading.TheConstants.{MAX_MESSAGE_BYTES};
ghost use Rattle.slo_limits.specs.declared.TheConstants.{MAX_ACCEPTED_ROWS, MAX_AMOUNT};
ghost use Rattle.slo_limits.specs.declared.TheConstants.{MAX_BATCH_ROWS, MAX_BINDINGS};
ghost use Rattle.slo_limits.specs.declared.TheConstants.{MAX_BODY_BYTES, MAX_CATALOG_BYTES};
ghost use Rattle.slo_limits.specs.declared.TheConstants.{MAX_CELLS, MAX_COUNTER, MAX_DAYS};
ghost use Rattle.slo_limits.specs.declared.TheConstants.{MAX_DECIMAL, MAX_FEEDS_BYTES};
ghost use Rattle.slo_limits.specs.declared.TheConstants.{MAX_FEED_BYTES, MAX_PUTS, MAX_READINGS};
ghost use Rattle.slo_limits.specs.declared.TheConstants.{MAX_SUMMED_ROWS, MAX_UPGRADED_CELLS};
ghost use Rattle.slo_limits.specs.declared.TheConstants.{MAX_UPGRADED_ROWS};
ghost use Rattle.slo_limits.specs.declared.TheConstants.{MAX_ENTRIES, MAX_EXCLUSIONS};
ghost use Rattle.slo_limits.specs.declared.TheConstants.{MAX_HEADER_FIELDS, MAX_HEAD_BYTES};
ghost use Rattle.slo_limits.specs.declared.TheConstants.{MAX_JOURNAL_BYTES, MAX_LABEL_BYTES};
ghost use Rattle.slo_limits.specs.declared.TheConstants.{MAX_LOOKBACK, MAX_MINUTE, MAX_NOTICES};
ghost use Rattle.slo_limits.specs.declared.TheConstants.{MAX_NOTICES_IN_ANSWER, MAX_OBJECTIVES};
ghost use Rattle.slo_limits.specs.declared.TheConstants.{MAX_OBJECTS, MAX_PASSES, MAX_POLICIES};
ghost use Rattle.slo_limits.specs.declared.TheConstants.{MAX_RECORD_BYTES, MAX_REQUESTS};
ghost use Rattle.slo_limits.specs.declared.TheConstants.{MAX_REVISION, MAX_SLIS, MAX_SLOS};
ghost use Rattle.slo_limits.specs.declared.TheConstants.{MAX_STARTS, MAX_SUM, MAX_TEXT_BYTES};
ghost use Rattle.slo_limits.specs.declared.TheConstants.{MAX_THRESHOLD, MAX_TIMELINE, MAX_WINDOW};
ghost use Rattle.slo_limits.specs.declared.TheConstants.{MAX_ZONES, MAX_ZONE_BYTES, MINUTES_A_DAY};
ghost use Rattle.slo_limits.specs.declared.TheConstants.{RANGE_MINUTES, WHOLE};

/// The numbers of decimals and amounts: one and the greatest decimal in billionths, the greatest
/// amount, revision and sum in events, and the greatest threshold in billionths.
pub fn limits_of_numbers()
    ensures whole { WHOLE ≡ 1000000000 }
    ensures decimal { MAX_DECIMAL ≡ 1000000000000000000 }
    ensures amount { MAX_AMOUNT ≡ 1000000000 }
    ensures revision { MAX_REVISION ≡ 1000000000 }
    ensures sum { MAX_SUM ≡ 4000000000000000 }
    ensures threshold { MAX_THRESHOLD ≡ 10000000000000 }
{}

/// The numbers of time, in minutes: those of a day, the greatest of the clock, those of an office's
/// range, of a window, of a lookback and of a timeline; and the most starts of a calendar's
/// windows.
pub fn limits_of_minutes()
    ensures day { MINUTES_A_DAY ≡ 1440 }
    ensures minute { MAX_MINUTE ≡ 67108863 }
    ensures range { RANGE_MINUTES ≡ 2097152 }
    ensures window { MAX_WINDOW ≡ 527040 }
    ensures lookback { MAX_LOOKBACK ≡ 43200 }
    ensures timeline { MAX_TIMELINE ≡ 44640 }
    ensures starts { MAX_STARTS ≡ 40000 }
{}

/// The numbers of documents and of a catalog: the most bytes of a name, a text, a catalog and a
/// zone, and the most objects of each kind.
pub fn limits_of_documents()
    ensures label { MAX_LABEL_BYTES ≡ 63 }
    ensures text { MAX_TEXT_BYTES ≡ 1048576 }
    ensures objects { MAX_OBJECTS ≡ 2000 }
    ensures catalog { MAX_CATALOG_BYTES ≡ 16777216 }
    ensures slis { MAX_SLIS ≡ 200 }
    ensures slos { MAX_SLOS ≡ 200 }
    ensures bindings { MAX_BINDINGS ≡ 400 }
    ensures objectives { MAX_OBJECTIVES ≡ 5 }
    ensures policies { MAX_POLICIES ≡ 10 }
    ensures zones { MAX_ZONES ≡ 50 }
    ensures zone { MAX_ZONE_BYTES ≡ 65536 }
{}

/// The numbers of samples and of what follows from them: the most rows of a batch, cells, rows
/// that a history takes, rows that are added up, cells and rows once it was upgraded, days,
/// exclusions, notices that wait, and notices of one answer.
pub fn limits_of_samples()
    ensures batch { MAX_BATCH_ROWS ≡ 1000 }
    ensures cells { MAX_CELLS ≡ 2000000 }
    ensures accepted { MAX_ACCEPTED_ROWS ≡ 4000000 }
    ensures summed { MAX_SUMMED_ROWS ≡ 4000000 }
    ensures upgraded_cells { MAX_UPGRADED_CELLS ≡ 4000000 }
    ensures upgraded_rows { MAX_UPGRADED_ROWS ≡ 8000000 }
    ensures days { MAX_DAYS ≡ 80000 }
    ensures exclusions { MAX_EXCLUSIONS ≡ 2000 }
    ensures notices { MAX_NOTICES ≡ 100000 }
    ensures notices_in_answer { MAX_NOTICES_IN_ANSWER ≡ 1000 }
{}

/// The numbers of counters: the most readings, readings that were new or newer, and the most that
/// a counter stands at.
pub fn limits_of_counters()
    ensures readings { MAX_READINGS ≡ 2000000 }
    ensures puts { MAX_PUTS ≡ 1000000000 }
    ensures counter { MAX_COUNTER ≡ 1000000000000000000 }
{}

/// The numbers of a history and its file: the most entries, and the most bytes of a record, of a
/// journal, of a feed and of the feeds that are read at once.
pub fn limits_of_histories()
    ensures entries { MAX_ENTRIES ≡ 30000000 }
    ensures record_bytes { MAX_RECORD_BYTES ≡ 1100000 }
    ensures journal { MAX_JOURNAL_BYTES ≡ 268435456 }
    ensures feed { MAX_FEED_BYTES ≡ 1048576 }
    ensures feeds { MAX_FEEDS_BYTES ≡ 536870912 }
{}

/// The numbers of messages and sessions: the most bytes of a head, a body and a whole message,
/// header fields, requests of a session, and passes of a desk.
pub fn limits_of_messages()
    ensures head { MAX_HEAD_BYTES ≡ 8192 }
    ensures fields { MAX_HEADER_FIELDS ≡ 64 }
    ensures body { MAX_BODY_BYTES ≡ 1048576 }
    ensures message { MAX_MESSAGE_BYTES ≡ 1056768 }
    ensures requests { MAX_REQUESTS ≡ 1000 }
    ensures passes { MAX_PASSES ≡ 64 }
{}
