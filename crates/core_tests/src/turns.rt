// Four seats that take turns over a list of notes, each in its thread.
ghost use Rattle.std.specs.Prelude.{◌≡◌};

use std::hint::spin_loop;
use std::sync::Wait;
use std::sync::atomic::{AtomicU64, Ordering};
use std::test::*;
use std::thread::{self, Threads};
use turn_lock::{Booked, LockSeat, TurnLock};

// How many turns each seat takes, and after how many all meet.
const TURNS: u32 = 25_000;

const BETWEEN: u32 = 10;

#[derive(Clone, Copy, PartialEq, Debug)]
struct Note {
    by: u32,
    turn: u32,
}

// The notes of a year. They stand for their year, which no turn may change.
#[derive(Drop)]
struct Notes {
    year: u32,
    notes: Vec<Note>,
    // how often a seat came to a meeting, which is over once all four came
    came: u32,
}

impl Booked for Notes {
    type Tag = u32;

    type Entry = Note;

    ghost entries = { λ s. s.notes.items };

    ghost by = { λ e. e.by };

    ghost opening = { λ s. s.year };

    ghost stands_for = { λ s tag. s.year ≡ tag };
}

// Waits for a time that differs from step to step: mostly not at all, and sometimes longer than a thread looks before it
// sleeps.
fn pause(number: u32, turn: u32, step: u32) {
    let rounds = match (turn % 1_009 * 31 + number % 4 * 7 + step % 3 * 3) % 97 {
        0 => 20_000,
        1..=9 => 100,
        _ => 0,
    };
    for _ in 0..rounds {
        spin_loop();
    }
}

// Waits until all four are about to come to a meeting, so that they come to it at about the same time.
fn gather(gathered: &AtomicU64, meeting: u32) {
    gathered.fetch_add(1, Ordering::SeqCst);
    for _ in 0..20_000 {
        if gathered.load(Ordering::SeqCst) / 4 > meeting as u64 {
            return;
        }
        spin_loop();
    }
}

// One of the four comes later, by about as long as the others look at the bell before they sleep.
fn come_late(number: u32, meeting: u32) {
    if number % 4 == meeting % 4 {
        for _ in 0..150 + meeting / 4 % 300 {
            spin_loop();
        }
    }
}

// Comes to a meeting, if one is due, and waits at the bell until all four came. The last one alone strikes, once: who misses
// that stroke, or is not woken by it, sleeps for ever, and the others with it at their next meeting.
fn meet<R: Wait>(
    rt: &R,
    lock: &TurnLock<Notes>,
    gathered: &AtomicU64,
    seat: LockSeat<Notes>,
    turn: u32,
) -> LockSeat<Notes>
    requires { seat.lock ≡ lock.now }
    ensures { result ≡ record seat { seen = result.seen; own = result.own } }
{
    if turn % BETWEEN != 0 {
        return seat;
    }
    let number = seat.number();
    gather(gathered, turn / BETWEEN);
    come_late(number, turn / BETWEEN);
    let (mut value, held) = lock.enter(rt, seat);
    let meeting = value.came / 4;
    value.came = value.came.wrapping_add(1);
    let stroke = if value.came % 4 == 0 {
        Some(lock.bell().strike())
    } else {
        None
    };
    let mut heard = lock.bell().strokes();
    let mut seat = lock.leave(held, value);
    if let Some(stroke) = stroke {
        pause(number, turn, 1);
        lock.bell().wake(stroke);
        return seat;
    }
    for _ in rt.forever() {
        pause(number, turn, 2);
        lock.bell().wait(rt, heard);
        let (value, held) = lock.enter(rt, seat);
        let is_over = value.came / 4 != meeting;
        heard = lock.bell().strokes();
        seat = lock.leave(held, value);
        if is_over {
            return seat;
        }
    }
    unreachable!()
}

// Takes the turns with a pause at every step, and one note in each turn while memory lasts.
fn take_turns<R: Wait>(
    rt: &R,
    lock: &TurnLock<Notes>,
    gathered: &AtomicU64,
    mut seat: LockSeat<Notes>,
) -> LockSeat<Notes>
    requires { seat.lock ≡ lock.now }
    ensures { result ≡ record seat { seen = result.seen; own = result.own } }
{
    let number = seat.number();
    for turn in 0..TURNS {
        seat = meet(rt, lock, gathered, seat, turn);
        let (mut value, held) = lock.enter(rt, seat);
        pause(number, turn, 0);
        let _ = value.notes.push(Note { by: number, turn });
        pause(number, turn, 1);
        seat = lock.leave(held, value);
        pause(number, turn, 2);
    }
    seat
}

// Two seats take their turns, each in its thread.
fn both_take_turns<R: Threads + Wait + Sync>(
    rt: &R,
    lock: &TurnLock<Notes>,
    gathered: &AtomicU64,
    first: LockSeat<Notes>,
    second: LockSeat<Notes>,
) -> (LockSeat<Notes>, LockSeat<Notes>)
    requires first { first.lock ≡ lock.now }
    requires second { second.lock ≡ lock.now }
    ensures first { result.0 ≡ record first { seen = result.0.seen; own = result.0.own } }
    ensures second { result.1 ≡ record second { seen = result.1.seen; own = result.1.own } }
{
    thread::join(
        rt,
        move || -> LockSeat<Notes>
            requires { first.lock ≡ lock.now }
            ensures { result ≡ record first { seen = result.seen; own = result.own } }
        { take_turns(rt, lock, gathered, first) },
        move || -> LockSeat<Notes>
            requires { second.lock ≡ lock.now }
            ensures { result ≡ record second { seen = result.seen; own = result.own } }
        { take_turns(rt, lock, gathered, second) },
    )
}

// A waiter that slept at its own turn or after the stroke that it waits for, or that nobody woke, would never come to its end.
#[test]
fn four_threads_take_turns(rt: HostRuntime) -> Result<(), Fail> {
    let notes = Notes {
        year: 2026,
        notes: Vec::new(rt.alloc()),
        came: 0,
    };
    let Ok((lock, seat)) = TurnLock::new(rt.alloc(), notes, 4) else {
        panic!(&rt; "no memory")
    };
    let (seat, first) = lock.split(seat);
    let (seat, second) = lock.split(seat);
    let (seat, third) = lock.split(seat);
    let gathered = AtomicU64::new(0);
    let (host, shared, meeting) = (&rt, &lock, &gathered);
    let ((seat, first), (second, third)) = thread::join(
        host,
        move || -> (LockSeat<Notes>, LockSeat<Notes>)
            requires seat { seat.lock ≡ shared.now }
            requires first { first.lock ≡ shared.now }
            ensures seat { result.0 ≡ record seat { seen = result.0.seen; own = result.0.own } }
            ensures first { result.1 ≡ record first { seen = result.1.seen; own = result.1.own } }
        { both_take_turns(host, shared, meeting, seat, first) },
        move || -> (LockSeat<Notes>, LockSeat<Notes>)
            requires second { second.lock ≡ shared.now }
            requires third { third.lock ≡ shared.now }
            ensures second { result.0 ≡ record second { seen = result.0.seen; own = result.0.own } }
            ensures third { result.1 ≡ record third { seen = result.1.seen; own = result.1.own } }
        { both_take_turns(host, shared, meeting, second, third) },
    );
    let seat = lock.join(seat, first);
    let seat = lock.join(seat, second);
    let seat = lock.join(seat, third);
    let Notes {
        year: _,
        notes,
        came,
    } = lock.close(seat);
    assert_eq!(&rt; came, TURNS / BETWEEN * 4);
    assert_eq!(&rt; notes.len(), 4 * TURNS as usize);
    let mut next = [0, 0, 0, 0];
    for note in &notes {
        let Some(turn) = next.get_mut(note.by as usize) else {
            panic!(&rt; "a number that was not given out")
        };
        assert_eq!(&rt; note.turn, *turn);
        *turn = turn.saturating_add(1);
    }
    assert!(&rt; next == [TURNS, TURNS, TURNS, TURNS]);
    Ok(())
}
