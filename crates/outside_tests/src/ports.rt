//! Doors at a port, with links of the same process. What is done at a door, and what is to come of
//! it, are small functions, since the proof of a test grows with all that its calls promise.
use crate::rows::expect;
use office_doors::{Door, Doors, DoorsFault, TcpDoor, TcpDoors};
use office_outside::{Failed, Sink, Source, write_whole};
use std::alloc::Global;
use std::io::{Read, Write};
use std::net::{Ipv4Addr, Net, Shutdown, SocketAddr, SocketAddrV4, TcpListener, TcpStream};
use std::sync::Wait;
use std::time::Clock;

/// The room for a message in these tests.
const ROOM: usize = 16;

fn here(port: u16) -> SocketAddr {
    SocketAddr::V4(SocketAddrV4::new(Ipv4Addr::LOCALHOST, port))
}

/// Doors with one that is open, and its port.
fn open_door<R>(rt: R, alloc: Global) -> Option<(TcpDoors<R>, TcpDoor<R>, u16)>
where
    R: Net<Listener = TcpListener, Stream = TcpStream> + Clock + Wait + Copy + Send + Sync + Drop,
{
    let mut doors = TcpDoors::new(rt, alloc);
    let mut opened = doors.open(0, 1).ok()?;
    let door = opened.pop()?;
    let port = door.port().ok()?;
    Some((doors, door, port))
}

fn link_to<R: Net<Stream = TcpStream>>(rt: &R, port: u16) -> Option<TcpStream> {
    TcpStream::connect(rt, here(port)).ok()
}

/// Whether a link takes a text.
fn sends(link: &mut TcpStream, text: &[u8]) -> bool {
    link.write(text).ok() == Some(text.len())
}

/// Whether a link takes a text, behind which no more comes.
fn sends_last(link: &mut TcpStream, text: &[u8]) -> bool {
    sends(link, text) && link.shutdown(Shutdown::Write).is_ok()
}

/// Whether a link hears this text; none, where it has ended.
fn hears(link: &mut TcpStream, text: &[u8]) -> bool {
    let mut answer = [0; ROOM];
    link.read(&mut answer).ok() == Some(text.len()) && answer.starts_with(text)
}

/// Whether a visit's input gives this text to a reader that holds so much of a message; none, where
/// it ends.
fn gives<S: Source>(input: &mut S, held: &[u8], text: &[u8]) -> bool {
    let mut piece = [0; ROOM];
    input.note_held(held);
    input.read(&mut piece).ok() == Some(text.len()) && piece.starts_with(text)
}

/// Serves the next link as a session does whose messages come in one piece each, and that answers
/// them by their bytes until the input ends. Answers how many messages came.
fn echo_next<R>(door: &mut TcpDoor<R>) -> Option<usize>
where
    R: Net<Listener = TcpListener, Stream = TcpStream> + Clock + Wait + Copy + Send + Sync + Drop,
{
    let mut visit = door.next().ok().flatten()?;
    let mut piece = [0; ROOM];
    let mut messages: usize = 0;
    for _ in 0..100 {
        match visit.input.read(&mut piece) {
            Ok(0) | Err(Failed) => break,
            Ok(count) => {
                write_whole(&mut visit.output, &piece[..count]).ok()?;
                visit.output.flush().ok()?;
                messages = messages.saturating_add(1);
            }
        }
    }
    door.end(visit);
    Some(messages)
}

/// Whether a message that a link sends has its answer in one visit.
fn is_answered<R>(door: &mut TcpDoor<R>, link: &mut TcpStream, text: &[u8]) -> bool
where
    R: Net<Listener = TcpListener, Stream = TcpStream> + Clock + Wait + Copy + Send + Sync + Drop,
{
    sends(link, text) && echo_next(door) == Some(1) && hears(link, text)
}

/// Whether the next visit gives a message and the end of its input, and takes an answer.
fn is_visited<R>(door: &mut TcpDoor<R>, message: &[u8], answer: &[u8]) -> Option<bool>
where
    R: Net<Listener = TcpListener, Stream = TcpStream> + Clock + Wait + Copy + Send + Sync + Drop,
{
    let mut visit = door.next().ok().flatten()?;
    let is_given = gives(&mut visit.input, b"", message) && gives(&mut visit.input, b"", b"");
    let is_right = is_given && write_whole(&mut visit.output, answer).is_ok();
    door.end(visit);
    Some(is_right)
}

#[test]
fn a_link_is_a_visit(rt: HostRuntime) {
    let (mut doors, mut door, port) = open_door(rt, rt.alloc()).expect(&rt, "a door");
    let mut link = link_to(&rt, port).expect(&rt, "a link");
    expect(&rt, sends_last(&mut link, b"hello"), "a message");
    let is_right = is_visited(&mut door, b"hello", b"good day");
    expect(&rt, is_right == Some(true), "a visit");
    expect(&rt, hears(&mut link, b"good day"), "an answer");
    doors.close(door);
}

#[test]
fn links_that_wait_hold_no_worker(rt: HostRuntime) {
    let (mut doors, mut door, port) = open_door(rt, rt.alloc()).expect(&rt, "a door");
    let mut first = link_to(&rt, port).expect(&rt, "a link");
    let mut second = link_to(&rt, port).expect(&rt, "a link");
    let mut third = link_to(&rt, port).expect(&rt, "a link");
    expect(&rt, is_answered(&mut door, &mut third, b"three"), "three");
    expect(&rt, is_answered(&mut door, &mut second, b"two"), "two");
    let is_right = is_answered(&mut door, &mut third, b"three again");
    expect(&rt, is_right, "three again");
    expect(&rt, is_answered(&mut door, &mut first, b"one"), "one");
    for _ in 0..40 {
        let is_right = is_answered(&mut door, &mut third, b"and again");
        expect(&rt, is_right, "and again");
    }
    doors.close(door);
}

/// Whether the next visit gives a message and the end of its input, and the link sends another one
/// before the visit is given back.
fn is_sent_before_the_end<R>(door: &mut TcpDoor<R>, link: &mut TcpStream) -> Option<bool>
where
    R: Net<Listener = TcpListener, Stream = TcpStream> + Clock + Wait + Copy + Send + Sync + Drop,
{
    let mut visit = door.next().ok().flatten()?;
    let is_given = gives(&mut visit.input, b"", b"one") && gives(&mut visit.input, b"", b"");
    let is_right = is_given && sends(link, b"two");
    door.end(visit);
    Some(is_right)
}

#[test]
fn bytes_that_come_while_a_link_is_given_back_are_seen(rt: HostRuntime) {
    let (mut doors, mut door, port) = open_door(rt, rt.alloc()).expect(&rt, "a door");
    let mut link = link_to(&rt, port).expect(&rt, "a link");
    expect(&rt, sends(&mut link, b"one"), "one");
    let is_right = is_sent_before_the_end(&mut door, &mut link);
    expect(&rt, is_right == Some(true), "two");
    expect(&rt, echo_next(&mut door) == Some(1), "the next visit");
    expect(&rt, hears(&mut link, b"two"), "its answer");
    doors.close(door);
}

/// Whether the next visit gives a byte, and one more that the link sends then, and ends where it
/// waits for a third.
fn is_begun<R>(door: &mut TcpDoor<R>, link: &mut TcpStream) -> Option<bool>
where
    R: Net<Listener = TcpListener, Stream = TcpStream> + Clock + Wait + Copy + Send + Sync + Drop,
{
    let mut visit = door.next().ok().flatten()?;
    let has_first = gives(&mut visit.input, b"", b"G") && sends(link, b"E");
    let has_second = has_first && gives(&mut visit.input, b"G", b"E");
    let is_right = has_second && gives(&mut visit.input, b"GE", b"");
    door.end(visit);
    Some(is_right)
}

/// Whether the next visit gives both bytes again, then what the link sent, and takes an answer; and
/// whether nothing is given again behind it.
fn is_ended<R>(door: &mut TcpDoor<R>) -> Option<bool>
where
    R: Net<Listener = TcpListener, Stream = TcpStream> + Clock + Wait + Copy + Send + Sync + Drop,
{
    let mut visit = door.next().ok().flatten()?;
    let has_front = gives(&mut visit.input, b"", b"GE");
    let has_whole = has_front && gives(&mut visit.input, b"GE", b"T");
    let is_answered = has_whole && write_whole(&mut visit.output, b"got").is_ok();
    let is_right = is_answered && gives(&mut visit.input, b"", b"");
    door.end(visit);
    Some(is_right)
}

#[test]
fn a_message_that_stands_still_holds_no_worker_and_is_given_again(rt: HostRuntime) {
    let (mut doors, mut door, port) = open_door(rt, rt.alloc()).expect(&rt, "a door");
    let mut slow = link_to(&rt, port).expect(&rt, "a link");
    let mut honest = link_to(&rt, port).expect(&rt, "a link");
    expect(&rt, sends(&mut slow, b"G"), "a byte");
    let is_right = is_begun(&mut door, &mut slow);
    expect(&rt, is_right == Some(true), "two bytes");
    expect(
        &rt,
        is_answered(&mut door, &mut honest, b"honest"),
        "honest",
    );
    expect(&rt, sends(&mut slow, b"T"), "the last byte");
    expect(&rt, is_ended(&mut door) == Some(true), "the message");
    expect(&rt, hears(&mut slow, b"got"), "its answer");
    expect(&rt, is_answered(&mut door, &mut slow, b"next"), "the next");
    doors.close(door);
}

/// The messages of the next visit that has some. A link that was ended before may come once more,
/// without a message.
fn echo_next_message<R>(door: &mut TcpDoor<R>) -> Option<usize>
where
    R: Net<Listener = TcpListener, Stream = TcpStream> + Clock + Wait + Copy + Send + Sync + Drop,
{
    let mut messages = 0;
    for _ in 0..10 {
        if messages == 0 {
            messages = echo_next(door)?;
        }
    }
    Some(messages)
}

#[test]
fn a_link_that_is_ended_leaves_its_place(rt: HostRuntime) {
    let (mut doors, mut door, port) = open_door(rt, rt.alloc()).expect(&rt, "a door");
    for _ in 0..1_200 {
        let mut link = link_to(&rt, port).expect(&rt, "a link");
        expect(&rt, sends_last(&mut link, b"once"), "a message");
        expect(&rt, echo_next_message(&mut door) == Some(1), "a visit");
        expect(&rt, hears(&mut link, b"once"), "an answer");
    }
    doors.close(door);
}

#[test]
fn a_port_is_had_once(rt: HostRuntime) {
    let mut doors = TcpDoors::new(rt, rt.alloc());
    let opened = doors.open(0, 1).ok().expect(&rt, "a port");
    let port = opened[0].port().ok().expect(&rt, "its number");
    let mut others = TcpDoors::new(rt, rt.alloc());
    let fault = others.open(port, 4).err();
    expect(&rt, fault == Some(DoorsFault::Failed), "the same port");
    for door in opened {
        doors.close(door);
    }
}
