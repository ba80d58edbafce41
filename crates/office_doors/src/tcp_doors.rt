//! Doors at a port of this machine. They tell nothing of what comes and goes.
ghost use Rattle.std.specs.Prelude.{◌≡◌, ◌++◌, ◌∷◌, [], None, length, All, IfOk};

use crate::hall::{Hall, make_hall, open_set};
use crate::places::MOST_LINKS;
use crate::tcp_door::TcpDoor;
use crate::{Doors, DoorsFault, Given};
use std::alloc::Global;
use std::net::{Ipv4Addr, Net, SocketAddr, SocketAddrV4, TcpListener, TcpStream};
use std::sync::{Arc, Wait};
use std::time::Instant;
use std::{io, time};

/// Doors at a port of 127.0.0.1: only programs of this machine come in. They share its listener and
/// its links, so that a link goes to whichever worker is free.
#[derive(Drop)]
pub struct TcpDoors<R: Drop> {
    rt: R,
    alloc: Global,
    asked: Given<u16>,
    faults: u64,
}

impl<R: Drop> TcpDoors<R> {
    /// Doors that touch nothing before they are opened.
    pub fn new(rt: R, alloc: Global) -> TcpDoors<R>
        ensures ports { result.asked.items ≡ [] }
        ensures faults { result.faults ≡ 0 }
    {
        TcpDoors {
            rt,
            alloc,
            asked: Given::new(),
            faults: 0,
        }
    }
}

/// Listens at a port of 127.0.0.1, with the longest queue that the system gives: std's own is 128
/// links. It notes the port of the very address that it asks for.
fn listen<R: Net>(rt: &R, port: u16, asked: &mut Given<u16>) -> io::Result<TcpListener>
    ensures { asked.new.items ≡ asked.old.items ++ port ∷ [] }
{
    let here = SocketAddr::V4(SocketAddrV4::new(Ipv4Addr::LOCALHOST, port));
    *asked = asked.and(&here.port());
    Ok(TcpListener::from(mio::net::TcpListener::bind(rt, here)?))
}

/// Has the system make room for the descriptors of all links, as far as it gives any, while there
/// are no workers: among several threads it makes room only after some 10 ms, each time that the
/// number of links has doubled, and who takes a link waits for it.
fn reserve_descriptors(alloc: Global, listener: &TcpListener) -> Option<()> {
    let mut taken = Vec::with_capacity(alloc, MOST_LINKS).ok()?;
    for _ in 0..MOST_LINKS {
        taken.push(listener.try_clone().ok()?).ok()?;
    }
    Some(())
}

/// Listens at the port, once for all doors.
fn open_hall<R: Net + time::Clock + Wait + Copy + Drop>(
    rt: R,
    alloc: Global,
    port: u16,
    asked: &mut Given<u16>,
) -> Result<Arc<Hall<R>>, DoorsFault>
    ensures { asked.new.items ≡ asked.old.items ++ port ∷ [] }
{
    let Ok(listener) = listen(&rt, port, asked) else {
        return Err(DoorsFault::Failed);
    };
    reserve_descriptors(alloc, &listener);
    let Ok(poll) = open_set(&rt, &listener) else {
        return Err(DoorsFault::Failed);
    };
    let Ok(registry) = poll.registry().try_clone() else {
        return Err(DoorsFault::Failed);
    };
    let Ok(now) = Instant::now(&rt) else {
        return Err(DoorsFault::Failed);
    };
    match make_hall(alloc, listener, poll, registry, now) {
        Ok(hall) => Ok(hall),
        Err(_) => Err(DoorsFault::NoMemory),
    }
}

/// Opens doors of one hall.
fn open_all<R: Net + time::Clock + Wait + Copy + Drop>(
    rt: R,
    alloc: Global,
    port: u16,
    workers: usize,
    asked: &mut Given<u16>,
) -> Result<Vec<TcpDoor<R>>, DoorsFault>
    ensures port { asked.new.items ≡ asked.old.items ++ port ∷ [] }
    ensures count { IfOk result (λ doors. length doors.items ≡ workers) }
    ensures quiet { IfOk result (λ doors. All (λ d. d.faults ≡ 0) doors.items) }
{
    let hall = match open_hall(rt, alloc, port, asked) {
        Ok(hall) => hall,
        Err(fault) => return Err(fault),
    };
    let Ok(mut doors) = Vec::with_capacity(alloc, workers) else {
        return Err(DoorsFault::NoMemory);
    };
    for _ in 0..workers {
        let Ok(shared) = Arc::try_clone(&hall) else {
            return Err(DoorsFault::NoMemory);
        };
        let door = TcpDoor::new(rt, shared);
        doors.push_reserved(door);
    }
    Ok(doors)
}

impl<R> Doors for TcpDoors<R>
where
    R: Net<Listener = TcpListener, Stream = TcpStream>
        + time::Clock
        + Wait
        + Copy
        + Send
        + Sync
        + Drop,
{
    type One = TcpDoor<R>;

    ghost told = { λ d. None };

    ghost ports = { λ d. d.asked.items };

    ghost faults = { λ d. d.faults };

    /// Fails where the port can't be had, as one that another program listens at.
    fn open(&mut self, port: u16, workers: usize) -> Result<Vec<TcpDoor<R>>, DoorsFault> {
        match open_all(self.rt, self.alloc, port, workers, &mut self.asked) {
            Err(DoorsFault::Failed) => {
                self.faults = self.faults.saturating_add(1);
                Err(DoorsFault::Failed)
            }
            outcome => outcome,
        }
    }

    fn close(&mut self, door: TcpDoor<R>) {
        self.faults = self.faults.saturating_add(door.faults());
    }

    ghost within = { λ d. tt };
}
