//! Passes over a list of numbers, one after another and in threads.
ghost use Rattle.std.specs.Prelude.{◌≡◌, [], ◌∷◌, ◌++◌, ◌≤◌, ℕ, List, All, IfSome};
ghost use Rattle.turn_desk.specs.NumberLists.{numbers};

use crate::{Add, Desk, Numbers, Pass, Read};
use std::alloc::Global;
use std::sync::Wait;
use std::thread;
use std::thread::Threads;

fn desk_for_two(alloc: Global) -> Option<(Desk<Numbers>, Pass<Numbers>, Pass<Numbers>)>
    ensures { IfSome result (λ made. (made.1.desk ≡ made.0) × (made.2.desk ≡ made.0)) }
{
    let empty = Numbers {
        items: Vec::new(alloc),
    };
    let Ok((desk, mut passes)) = Desk::new(alloc, empty, 2) else {
        return None;
    };
    let second = passes.pop()?;
    let first = passes.pop()?;
    Some((desk, first, second))
}

/// Adds a number and splits the pass: the further one has seen the number, as the last entry.
fn add_and_split<R: Wait>(
    rt: &R,
    desk: &Desk<Numbers>,
    pass: &mut Pass<Numbers>,
    number: u64,
) -> Option<Pass<Numbers>>
    requires { pass.old.desk ≡ desk.now }
    ensures desk { pass.new.desk ≡ desk.now }
    ensures seen { IfSome result (λ further. (further.desk ≡ desk.now)
        × ((before : List ℕ) × (further.seen ≡ (numbers (before ++ number ∷ [])).history))) }
{
    let mut add = Add { number };
    if !desk.with_turn(rt, pass, &mut add) {
        return None;
    }
    Some(desk.split(pass))
}

#[test]
fn each_pass_reads_a_list_with_its_own_number(rt: HostRuntime) {
    let alloc = rt.alloc();
    let (desk, mut first, mut second) = desk_for_two(alloc).expect(&rt, "memory");
    let mut third = add_and_split(&rt, &desk, &mut first, 5).expect(&rt, "memory");
    let mut add = Add { number: 7 };
    assert!(rt; desk.with_turn(&rt, &mut second, &mut add));
    let mut read = Read { alloc };
    let by_first = desk
        .with_turn(&rt, &mut first, &mut read)
        .expect(&rt, "memory");
    assert!(rt; by_first.contains(&5));
    let by_second = desk
        .with_turn(&rt, &mut second, &mut read)
        .expect(&rt, "memory");
    assert!(rt; by_second.contains(&7));
    let by_third = desk
        .with_turn(&rt, &mut third, &mut read)
        .expect(&rt, "memory");
    assert!(rt; by_third.contains(&5));
    desk.join(&mut first, second);
    let passes = vec![in alloc; first, third].expect(&rt, "memory");
    let value = desk.close(&rt, passes);
    assert!(rt; value.items.as_slice() == [5, 7].as_slice());
}

/// How many numbers each thread adds.
const EACH: u64 = 10_000;

/// Adds numbers in order, each hundredth by a further pass that is joined again.
fn add_all<R: Wait>(
    rt: &R,
    desk: &Desk<Numbers>,
    mut pass: Pass<Numbers>,
    first: u64,
) -> Pass<Numbers>
    requires { (pass.desk ≡ desk.now) × (first ≤ 30_000) }
    ensures { result.desk ≡ desk.now }
{
    for k in 0..EACH {
        let mut add = Add { number: first + k };
        if k % 100 == 99 {
            let mut further = desk.split(&mut pass);
            desk.with_turn(rt, &mut further, &mut add);
            desk.join(&mut pass, further);
        } else {
            desk.with_turn(rt, &mut pass, &mut add);
        }
    }
    pass
}

/// Two threads, one for each pass.
fn add_in_two<R: Wait + Threads + Sync>(
    rt: &R,
    desk: &Desk<Numbers>,
    one: Pass<Numbers>,
    two: Pass<Numbers>,
    first: u64,
) -> (Pass<Numbers>, Pass<Numbers>)
    requires { (one.desk ≡ desk.now) × (two.desk ≡ desk.now) × (first ≤ 20_000) }
    ensures { (result.0.desk ≡ desk.now) × (result.1.desk ≡ desk.now) }
{
    thread::join(
        rt,
        move || -> Pass<Numbers>
            requires { (one.desk ≡ desk.now) × (first ≤ 20_000) }
            ensures { result.desk ≡ desk.entry.now }
        { add_all(rt, desk, one, first) },
        move || -> Pass<Numbers>
            requires { (two.desk ≡ desk.now) × (first ≤ 20_000) }
            ensures { result.desk ≡ desk.entry.now }
        { add_all(rt, desk, two, first + EACH) },
    )
}

/// Four threads. Their passes are joined two by two.
fn add_in_four<R: Wait + Threads + Sync>(
    rt: &R,
    desk: &Desk<Numbers>,
    mut passes: Vec<Pass<Numbers>>,
) -> Option<(Pass<Numbers>, Pass<Numbers>)>
    requires { All (λ p. p.desk ≡ desk.now) passes.items }
    ensures { IfSome result (λ two. (two.0.desk ≡ desk.now) × (two.1.desk ≡ desk.now)) }
{
    let four = passes.pop()?;
    let three = passes.pop()?;
    let two = passes.pop()?;
    let one = passes.pop()?;
    let ((mut one, two), (mut three, four)) = thread::join(
        rt,
        move || -> (Pass<Numbers>, Pass<Numbers>)
            requires { (one.desk ≡ desk.now) × (two.desk ≡ desk.now) }
            ensures { (result.0.desk ≡ desk.entry.now) × (result.1.desk ≡ desk.entry.now) }
        { add_in_two(rt, desk, one, two, 0) },
        move || -> (Pass<Numbers>, Pass<Numbers>)
            requires { (three.desk ≡ desk.now) × (four.desk ≡ desk.now) }
            ensures { (result.0.desk ≡ desk.entry.now) × (result.1.desk ≡ desk.entry.now) }
        { add_in_two(rt, desk, three, four, 20_000) },
    );
    desk.join(&mut one, two);
    desk.join(&mut three, four);
    Some((one, three))
}

#[test]
fn four_threads_add_each_number_once_and_in_their_order(rt: HostRuntime) {
    let alloc = rt.alloc();
    let empty = Numbers {
        items: Vec::new(alloc),
    };
    let (desk, passes) = Desk::new(alloc, empty, 4).ok().expect(&rt, "memory");
    let (one, three) = add_in_four(&rt, &desk, passes).expect(&rt, "memory");
    let passes = vec![in alloc; one, three].expect(&rt, "memory");
    let value = desk.close(&rt, passes);
    assert!(rt; value.items.len() == 40_000);
    let mut next = [0u64; 4];
    for number in value.items.iter() {
        let thread = (*number / EACH) as usize;
        assert!(rt; thread < 4);
        assert!(rt; *number % EACH == next[thread]);
        next[thread] = *number % EACH + 1;
    }
    assert!(rt; next == [EACH; 4]);
}
