//! The stream of a number.
ghost use Rattle.std.specs.Prelude.{◌≡◌, ◌++◌, ◌≤◌, OnOk, OnErr, codes, length};
ghost use Rattle.office_outside.specs.Faults.{HasCause};
ghost use Rattle.office_outside.specs.Told.{Gained, GainedPrefix};
ghost use Rattle.sample_stream.specs.Batches.{batch_of as batch_of_def, corrections};
ghost use Rattle.sample_stream.specs.Stream.{batches, definitions, documents, last_requests};
ghost use Rattle.sample_stream.specs.Stream.{questions, samples, stream_of};

use crate::batch::{Batch, rows_length, write_rows};
use crate::documents::{ALERT_TARGETS, SHOP};
use office_outside::{Failed, Sink, write_whole};
use request_texts::{head, write_both};

/// The greatest number of a stream: with its five other requests one session answers all of it.
pub const MAX_NUMBER: u32 = 995;

/// How many bytes the documents have.
#[tactic(auto, unfolding(crate::specs::Stream::documents))]
fn documents_length() -> u64
    ensures { result ≡ length documents }
{
    (ALERT_TARGETS.len() + "---\n".len() + SHOP.len()) as u64
}

/// Two documents behind a head, with a line of three hyphens between them.
fn write_documents<K: Sink>(
    head: &[u8],
    first: &[u8],
    second: &[u8],
    output: &mut K,
) -> Result<(), Failed>
    ensures gained { OnOk result
        (Gained (head.now ++ (first.now ++ (codes "---\n" ++ second.now)))
        (K.held output.old) (K.held output.new)) }
    ensures part { OnErr result
        (GainedPrefix (head.now ++ (first.now ++ (codes "---\n" ++ second.now)))
        (K.held output.old) (K.held output.new)) }
    ensures cause { HasCause (K.faults output.old) (K.faults output.new) result }
{
    write_both(head, first, output)?;
    write_both(b"---\n", second, output)
}

fn write_definitions<K: Sink>(output: &mut K) -> Result<(), Failed>
    ensures gained { OnOk result (Gained definitions (K.held output.old) (K.held output.new)) }
    ensures part { OnErr result
        (GainedPrefix definitions (K.held output.old) (K.held output.new)) }
    ensures cause { HasCause (K.faults output.old) (K.faults output.new) result }
{
    let head = head("POST /objects", documents_length());
    write_documents(
        head.as_bytes(),
        ALERT_TARGETS.as_bytes(),
        SHOP.as_bytes(),
        output,
    )
}

fn write_samples<K: Sink>(batch: Batch, output: &mut K) -> Result<(), Failed>
    ensures gained { OnOk result (Gained (samples batch) (K.held output.old) (K.held output.new)) }
    ensures part { OnErr result
        (GainedPrefix (samples batch) (K.held output.old) (K.held output.new)) }
    ensures cause { HasCause (K.faults output.old) (K.faults output.new) result }
{
    let head = head("POST /samples", rows_length(batch));
    write_whole(output, head.as_bytes())?;
    write_rows(batch, output)
}

/// The batch of this number, from 0 on.
fn batch_of(number: u32) -> Batch
    requires { number ≤ MAX_NUMBER }
    ensures { result ≡ batch_of_def number }
{
    Batch {
        first: 1000 * number,
        count: 1000,
        corrects: false,
    }
}

fn write_batches<K: Sink>(count: u32, output: &mut K) -> Result<(), Failed>
    requires { count ≤ MAX_NUMBER }
    ensures gained { OnOk result (Gained (batches count) (K.held output.old) (K.held output.new)) }
    ensures part { OnErr result
        (GainedPrefix (batches count) (K.held output.old) (K.held output.new)) }
    ensures cause { HasCause (K.faults output.old) (K.faults output.new) result }
{
    for number in 0..count {
        write_samples(batch_of(number), output)?;
    }
    Ok(())
}

fn write_questions<K: Sink>(output: &mut K) -> Result<(), Failed>
    ensures gained { OnOk result (Gained questions (K.held output.old) (K.held output.new)) }
    ensures part { OnErr result
        (GainedPrefix questions (K.held output.old) (K.held output.new)) }
    ensures cause { HasCause (K.faults output.old) (K.faults output.new) result }
{
    let tick = head("POST /tick", 0);
    let budgets = head("GET /budgets/shop-slo", 0);
    write_both(tick.as_bytes(), budgets.as_bytes(), output)
}

/// The corrections, the first batch again, and the questions.
fn write_last<K: Sink>(output: &mut K) -> Result<(), Failed>
    ensures gained { OnOk result (Gained last_requests (K.held output.old) (K.held output.new)) }
    ensures part { OnErr result
        (GainedPrefix last_requests (K.held output.old) (K.held output.new)) }
    ensures cause { HasCause (K.faults output.old) (K.faults output.new) result }
{
    let corrections = Batch {
        first: 0,
        count: 100,
        corrects: true,
    };
    write_samples(corrections, output)?;
    write_samples(batch_of(0), output)?;
    write_questions(output)
}

/// Writes the stream of a number from 1 to 995: so many batches of 1,000 samples, with the requests
/// that define what they count before them, and corrections, a repetition, a tick and the question
/// for the budget behind them. It takes no memory.
///
/// # Errors
///
/// The sink failed, and a prefix of the stream was written.
pub fn generate<K: Sink>(number: u32, output: &mut K) -> Result<(), Failed>
    requires { number ≤ MAX_NUMBER }
    ensures gained { OnOk result
        (Gained (stream_of number) (K.held output.old) (K.held output.new)) }
    ensures part { OnErr result
        (GainedPrefix (stream_of number) (K.held output.old) (K.held output.new)) }
    ensures cause { HasCause (K.faults output.old) (K.faults output.new) result }
{
    write_definitions(output)?;
    write_batches(number, output)?;
    write_last(output)
}
