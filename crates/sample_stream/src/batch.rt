//! Batches of samples.
ghost use Rattle.std.specs.Prelude.{◌≡◌, ◌*◌, ◌≤◌, [], OnOk, OnErr, length};
ghost use Rattle.office_outside.specs.Faults.{HasCause};
ghost use Rattle.office_outside.specs.Told.{Gained, GainedPrefix};
ghost use Rattle.sample_stream.specs.Batches.{row_at, rows_of};

use office_outside::{Failed, Sink, write_whole};
use request_texts::Line;

/// Rows of minutes one after another, as they were counted first or corrected.
#[derive(Clone, Copy, Debug)]
pub(crate) struct Batch {
    /// The first minute.
    pub(crate) first: u32,
    /// How many minutes.
    pub(crate) count: u32,
    /// Whether it corrects: what is counted first misses one event in each other minute.
    pub(crate) corrects: bool,
}

/// The row of a minute of the batch, counted from its first one.
fn row(batch: Batch, place: u32) -> Line
    ensures row { result ≡ row_at batch place }
    ensures short { length result ≤ 100 }
{
    let (revision, good) = if batch.corrects {
        (2, 1000)
    } else {
        (1, 1000 - u64::from(place % 2))
    };
    let mut line = Line::new();
    line.push("shop-good,s,");
    line.push_number(u64::from(batch.first) + u64::from(place));
    line.push(",");
    line.push_number(revision);
    line.push(",");
    line.push_number(good);
    line.push(",1000\n");
    line
}

/// How many bytes the rows of a batch have.
#[tactic(auto, unfolding(crate::specs::Batches::rows_of))]
pub(crate) fn rows_length(batch: Batch) -> u64
    ensures { result ≡ length (rows_of batch) }
{
    let mut total = 0;
    for place in 0..batch.count {
        total += row(batch, place).as_bytes().len() as u64;
    }
    total
}

/// Writes the rows of a batch. After `Failed` a prefix of them was written.
#[tactic(auto, unfolding(crate::specs::Batches::rows_of))]
pub(crate) fn write_rows<K: Sink>(batch: Batch, output: &mut K) -> Result<(), Failed>
    ensures gained { OnOk result (Gained (rows_of batch) (K.held output.old) (K.held output.new)) }
    ensures part { OnErr result
        (GainedPrefix (rows_of batch) (K.held output.old) (K.held output.new)) }
    ensures cause { HasCause (K.faults output.old) (K.faults output.new) result }
{
    for place in 0..batch.count {
        write_whole(output, row(batch, place).as_bytes())?;
    }
    Ok(())
}
