//! What the program is asked for.

use budget_command::BudgetOrder;
use exact_fraction::Label;

/// A command that is answered from the bytes of its input alone.
#[derive(Clone, Copy, Debug)]
pub enum InputCommand {
    /// The budget of the samples of the input.
    Budget(BudgetOrder),
    /// Whether the documents of the input can be defined together, and how many there are.
    Check,
}

/// What `counters` is asked for.
#[derive(Clone, Copy, Debug)]
pub struct CountersOrder {
    /// The indicator of the rows.
    pub sli: Label,
}

/// What the program is asked for.
#[derive(Clone, Copy, Debug)]
pub enum Invocation {
    /// The answer of a command on the bytes of its input.
    Answer(InputCommand),
    /// A new journal, whose history begins at this minute, or else at the clock's reading.
    Init(Option<u32>),
    /// A session over the journal.
    Pipe,
    /// The feeds of the input, followed over the journal.
    Follow,
    /// The report at this minute, or else at the moment.
    Report(Option<u32>),
    /// Sessions over the journal, for all that come to this port.
    Serve(u16),
    /// A session of the sample stream of this number, over an office in memory.
    Generate(u32),
    /// The sample rows of an indicator, from the readings of counters in the input.
    Counters(CountersOrder),
    /// The upgrade of the journal's office.
    Migrate,
    /// The requests of this part that make the journal's office anew, counted from 1.
    Export(u32),
}
