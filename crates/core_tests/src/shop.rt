//! A machine with the objects of a shop, and what comes to it.
ghost use Rattle.std.specs.Prelude.{◌≤◌, ◌≡◌, IfOk};
ghost use Rattle.slo_limits.specs.declared.TheConstants.{MAX_MINUTE, MAX_REVISION};
ghost use Rattle.office_core.specs.Machine.{HasRevisions};

use exact_fraction::{Bytes, Label, read_label};
use office_core::Core;
use office_derived::Verdict;
use record_form::{Command, Listed};
use sample_book::Row;
use sample_stream::{ALERT_TARGETS, SHOP};
use slice_method::Amount;
use std::alloc::{AllocError, Global};
use std::mem;
use std::process::Abort;

/// Ends the test, with the case, unless it is right. Each assertion costs a proof of its own, so
/// this one stands for all.
pub(crate) fn expect(rt: &impl Abort, is_right: bool, case: &str) {
    assert!(rt; is_right, "{case}");
}

pub(crate) fn label(rt: &impl Abort, text: &[u8]) -> Label {
    read_label(text).expect(rt, "a label")
}

/// The objects of the sample stream's shop: an SLO with one objective, and an alert where more than
/// twice the budget burns in an hour, for five minutes.
fn definition(alloc: Global) -> Result<Command, AllocError>
    ensures { IfOk result HasRevisions }
{
    let text = format!(in alloc; "{ALERT_TARGETS}---\n{SHOP}")?;
    Ok(Command::Define(Bytes::from_vec(text.into_bytes())))
}

fn batch(alloc: Global, row: Row) -> Result<Command, AllocError>
    requires first { 1 ≤ row.revision }
    requires last { row.revision ≤ MAX_REVISION }
    ensures { IfOk result HasRevisions }
{
    let mut rows = Vec::new(alloc);
    rows.extend_from_slice(&[row])?;
    Ok(Command::Samples(Listed::from_vec(rows)))
}

/// Makes a change, which has to be accepted.
fn change(rt: &impl Abort, alloc: Global, core: &mut Core, reading: u32, command: &Command)
    requires reading { reading ≤ MAX_MINUTE }
    requires revisions { HasRevisions command.now }
{
    core.is_legal();
    let moment = core.moment(reading);
    assert!(rt; core.in_range(moment));
    match core.prepare(alloc, moment, command) {
        Verdict::Ready(value) => mem::forget(core.commit(value)),
        other => {
            mem::forget(other);
            expect(rt, false, "the change isn't accepted");
        }
    }
}

/// A machine with the objects of a shop, from minute 0 on.
pub(crate) fn shop(rt: &impl Abort, alloc: Global) -> Core {
    let mut core = Core::new(alloc, 0).expect(rt, "memory");
    let command = definition(alloc).expect(rt, "memory");
    change(rt, alloc, &mut core, 0, &command);
    mem::forget(command);
    core
}

/// Sends one row of the shop's indicator: at a minute, of a revision, with so many good events of
/// so many.
pub(crate) fn send(
    rt: &impl Abort,
    alloc: Global,
    core: &mut Core,
    reading: u32,
    sample: (u32, u32, u32, u32),
)
    requires reading { reading ≤ MAX_MINUTE }
{
    let (minute, revision, good, total) = sample;
    assert!(rt; 1 <= revision && revision <= 1_000);
    let row = Row {
        sli: label(rt, b"shop-good"),
        source: label(rt, b"web"),
        minute,
        revision,
        amount: Amount::Counts { part: good, total },
    };
    let command = batch(alloc, row).expect(rt, "memory");
    change(rt, alloc, core, reading, &command);
    mem::forget(command);
}

/// Ends a machine, whose memory goes with the test's. The proof that all of it is let go is long,
/// and no test is about it.
pub(crate) fn let_go(core: Core) {
    mem::forget(core);
}
