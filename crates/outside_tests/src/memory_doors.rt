//! Doors in memory: who gets which visit, and what is kept. What a door shows is how many visits
//! came back to it, whether it has ended, how often it failed, and the byte of each visit.
ghost use Rattle.std.specs.Prelude.{◌+◌, ◌≤◌, length};
ghost use Rattle.office_doors.specs.DoorsMemory.{entrance_of};

use crate::rows::{expect, expect_row, numbers_of, visit_of};
use office_doors::{Door, Doors, DoorsFault, MemoryDoor, MemoryDoors, MemoryVisit};
use office_outside::MemorySink;
use std::alloc::{AllocError, Global};
use std::process::Abort;

/// Visits with the bytes from 0 on.
fn visits(rt: &(impl AllocGlobal + Abort), count: u8) -> Vec<MemoryVisit<MemorySink>> {
    let mut all = Vec::new(rt.alloc());
    for byte in 0..count {
        let bytes = Vec::from_slice(rt.alloc(), &[byte]).expect(rt, "memory");
        all.push(visit_of(rt.alloc(), bytes)).expect(rt, "memory");
    }
    all
}

/// Takes and gives back the visits of a door.
fn serve_all(door: &mut MemoryDoor<MemorySink>) {
    for _ in 0..100u32 {
        match door.next() {
            Ok(Some(visit)) => door.end(visit),
            _ => break,
        }
    }
}

/// Serves and closes these doors, one after another.
fn serve_and_close(doors: &mut MemoryDoors<MemorySink>, opened: Vec<MemoryDoor<MemorySink>>)
    requires { length (entrance_of doors.old).closed + length opened.items
        ≤ (entrance_of doors.old).opened }
{
    for mut door in opened {
        serve_all(&mut door);
        doors.close(door);
    }
}

/// Appends the bytes of the visits that came back.
fn show_back(
    alloc: Global,
    out: &mut String,
    visits: &[MemoryVisit<MemorySink>],
) -> Result<(), AllocError> {
    for visit in visits {
        let byte = visit.input.left().first().copied().unwrap_or(255);
        out.push_str(&format!(in alloc; " {byte}")?)?;
    }
    Ok(())
}

/// What a door shows.
fn shown(alloc: Global, door: &MemoryDoor<MemorySink>) -> Result<String, AllocError> {
    let (count, ended, faults) = (door.back().len(), door.ended(), door.faults());
    let mut out = format!(in alloc; "{count} back, {ended}, {faults} faults:")?;
    show_back(alloc, &mut out, door.back())?;
    Ok(out)
}

/// What the doors that were closed show, a line for each.
fn shown_closed(alloc: Global, doors: &MemoryDoors<MemorySink>) -> Result<String, AllocError> {
    let mut out = String::new(alloc);
    for door in doors.closed() {
        out.push_str(&shown(alloc, door)?)?;
        out.push_str("\n")?;
    }
    Ok(out)
}

/// What a door over so many visits shows once it was served, and once it was served again, while
/// these calls fail.
fn served_twice(rt: &(impl AllocGlobal + Abort), count: u8, failing: &str) -> (String, String) {
    let failing = numbers_of(rt.alloc(), failing).expect(rt, "memory");
    let mut door = MemoryDoor::new(rt.alloc(), visits(rt, count), failing).expect(rt, "memory");
    serve_all(&mut door);
    let first = shown(rt.alloc(), &door).expect(rt, "memory");
    serve_all(&mut door);
    (first, shown(rt.alloc(), &door).expect(rt, "memory"))
}

#[test]
fn a_door_hands_out_its_visits_in_order_and_keeps_them(rt: HostRuntime) {
    let (first, second) = served_twice(&rt, 3, "");
    expect_row(&rt, "served", &first, "3 back, true, 0 faults: 0 1 2");
    expect_row(
        &rt,
        "served again",
        &second,
        "3 back, true, 0 faults: 0 1 2",
    );
}

#[test]
fn a_call_that_is_to_fail_hands_out_nothing(rt: HostRuntime) {
    let (first, second) = served_twice(&rt, 2, "1");
    expect_row(&rt, "served", &first, "1 back, false, 1 faults: 0");
    expect_row(&rt, "served again", &second, "2 back, true, 1 faults: 0 1");
}

#[test]
fn five_visits_are_shared_out_among_four_doors(rt: HostRuntime) {
    let alloc = rt.alloc();
    let all = visits(&rt, 5);
    let mut doors = MemoryDoors::new(alloc, all, Vec::new(alloc), Vec::new(alloc));
    let opened = doors.open(8080, 4).ok().expect(&rt, "memory");
    expect(&rt, opened.len() == 4, "four doors");
    serve_and_close(&mut doors, opened);
    let told = shown_closed(alloc, &doors).expect(&rt, "memory");
    let wanted = "\
2 back, true, 0 faults: 0 1
1 back, true, 0 faults: 2
1 back, true, 0 faults: 3
1 back, true, 0 faults: 4
";
    expect_row(&rt, "closed", &told, wanted);
}

#[test]
fn the_faults_of_a_closed_door_are_the_doors_faults(rt: HostRuntime) {
    let alloc = rt.alloc();
    let failing = numbers_of(alloc, "0").expect(&rt, "memory");
    let mut failing_next = Vec::new(alloc);
    failing_next
        .push(numbers_of(alloc, "0").expect(&rt, "memory"))
        .expect(&rt, "memory");
    let mut doors = MemoryDoors::new(alloc, visits(&rt, 0), failing, failing_next);
    let fault = doors.open(8080, 2).err();
    expect(&rt, fault == Some(DoorsFault::Failed), "an opening");
    expect(&rt, doors.faults() == 1, "its fault");
    let opened = doors.open(8080, 2).ok().expect(&rt, "memory");
    serve_and_close(&mut doors, opened);
    let told = shown_closed(alloc, &doors).expect(&rt, "memory");
    let wanted = "0 back, false, 1 faults:\n0 back, true, 0 faults:\n";
    expect_row(&rt, "closed", &told, wanted);
    expect(&rt, doors.faults() == 2, "the faults of both");
}
