// A race over threads.
ghost use Rattle.std.specs.Prelude.{◌∷◌, ◌≡◌, ◌≤◌, [], length, map, IfOk, OnErr, vec_len, vec_capacity};
ghost use Rattle.workers.specs.Dealt.{dealt};
ghost use Rattle.atomic_table.specs.Table.{State, Seen};
ghost use Rattle.race.specs.Machine.{Starts, EndsAs, Tells};
ghost use Rattle.race.specs.SeatedLane.{IsKeeper, NewSeats, AreSeated, entry_of, unseated};
ghost use Rattle.race.specs.Winner.{IsRuled};
ghost use Rattle.race.specs.declared.winner.View.{View};

use crate::engines::Racer;
use crate::groups::Rotation;
use crate::lanes::Lane;
use crate::playing::{Outcome, outcome_at, play};
use crate::seated_lane::SeatedLane;
use crate::winner::{Collects, Seats, Word, WordSeat, WordTable};
use ports::{Gate, NoMemory};
use std::alloc::Global;
use std::thread::Threads;
use workers::Groups;

// A seat for each number, from the keeper's.
fn take_seats(word: &Word, keeper: &mut WordSeat, seats: &mut Vec<WordSeat>, count: usize)
    requires word { word.now.table_id.words ≡ 1 }
    requires keeper { IsKeeper word.now.table_id 0 [] keeper.old }
    requires room { (vec_len seats.old ≡ 0) × (count ≤ vec_capacity seats.old) × (count ≤ 64) }
    ensures keeper { IsKeeper word.now.table_id count [] keeper.new }
    ensures seats { NewSeats word.now.table_id seats.new.items × (length seats.new.items ≡ count) }
{
    for _ in 0..count {
        let seat = word.split_seat::<Seats>(keeper);
        seats.push_reserved(seat);
    }
}

// Each lane gets its seat, and goes to its group.
fn seat_all<R: Racer>(
    word: &Word,
    keeper: &mut WordSeat,
    seats: &mut Vec<WordSeat>,
    lanes: &mut Vec<Lane<R>>,
    groups: &mut Groups<SeatedLane<R>>,
)
    requires word { word.now.table_id.words ≡ 1 }
    requires keeper { IsKeeper word.now.table_id 0 [] keeper.old }
    requires room { (vec_len seats.old ≡ 0) × (length lanes.old.items ≤ vec_capacity seats.old)
        × (length lanes.old.items ≤ 64) }
    requires groups { groups.old ≡ dealt (length lanes.old.items) [] }
    requires lanes { Starts R.Racer lanes.old.items }
    ensures keeper { IsKeeper word.now.table_id (length lanes.old.items) [] keeper.new }
    ensures groups { map unseated groups.new.items ≡ lanes.old.items }
    ensures seated { AreSeated R.Racer word.now.table_id groups.new.items }
    ensures lanes { (lanes.new.items ≡ []) × (vec_capacity lanes.new ≡ vec_capacity lanes.old) }
{
    take_seats(word, keeper, seats, lanes.len());
    while let Some(lane) = lanes.pop() {
        let Some(seat) = seats.pop() else {
            unreachable!()
        };
        groups.put(SeatedLane { lane, seat });
    }
}

// The lanes come back in order, and the keeper gains their seats.
fn gather<R: Racer>(
    word: &Word,
    keeper: &mut WordSeat,
    groups: &mut Groups<SeatedLane<R>>,
    lanes: &mut Vec<Lane<R>>,
)
    requires word { word.now.table_id.words ≡ 1 }
    requires keeper { IsKeeper word.now.table_id (length groups.old.items) [] keeper.old }
    requires seated { AreSeated R.Racer word.now.table_id groups.old.items }
    requires room { (lanes.old.items ≡ [])
        × (length groups.old.items ≤ vec_capacity lanes.old) }
    ensures keeper { IsKeeper word.now.table_id (length groups.old.items)
        (map entry_of lanes.new.items) keeper.new }
    ensures lanes { lanes.new.items ≡ map unseated groups.old.items }
{
    while let Some(seated) = groups.take() {
        let SeatedLane { lane, seat } = seated;
        word.join_seat::<Collects>(keeper, seat);
        lanes.push_reserved(lane);
    }
}

// The word at the end, of which the rule holds with what the keeper knows.
fn last_word(table: WordTable, keeper: WordSeat) -> u64
    requires { (keeper.table_id ≡ table.shared.table_id) × (table.shared.table_id.words ≡ 1)
        × (table.shared.table_id.slots ≡ 0) }
    ensures { (s : State (Unit {0}) View) × Seen IsRuled keeper.id keeper.me.0 s
        × (s.words ≡ result ∷ []) }
{
    let closed = table.close_with(keeper);
    let word = closed.word(0);
    closed.free();
    word
}

/// A race over threads, of 1 to 64 running lanes that are numbered by place. Lane i goes to group i
/// modulo the number of workers, and the groups run at the same time; each goes in rotation over
/// its running lanes, each of which passes the gate and then has a turn. With one worker it is
/// [`play`] with the empty schedule, and the gate is not passed. The lanes keep their numbers,
/// their places and their engines' tasks. All memory is taken before the first turn, beside what
/// the engines ask for; where it is wanting the lanes are as they were.
pub fn race<T: Threads + Sync, R: Racer + Send, G: Gate + Sync>(
    rt: &T,
    alloc: Global,
    lanes: &mut Vec<Lane<R>>,
    workers: usize,
    gate: &G,
) -> Result<Outcome, NoMemory>
    requires count { (1 ≤ length lanes.old.items) × (length lanes.old.items ≤ 64) }
    requires running { Starts R.Racer lanes.old.items }
    requires workers { 1 ≤ workers }
    ensures ends { IfOk result (λ o. EndsAs R.Racer lanes.old.items o lanes.new.items) }
    ensures told { IfOk result (λ o. Tells R.Racer o lanes.new.items) }
    ensures kept { OnErr result (lanes.new.items ≡ lanes.old.items) }
{
    if workers == 1 {
        return Ok(play(lanes, &Vec::new(alloc)));
    }
    let count = lanes.len();
    let (table, mut keeper) = WordTable::of_words(alloc, &[0], &())?;
    let mut seats = Vec::with_capacity(alloc, count)?;
    let mut groups = Groups::with_room(alloc, count, workers)?;
    let shared = &table.shared;
    seat_all(shared, &mut keeper, &mut seats, lanes, &mut groups);
    groups.run(rt, &Rotation { word: shared, gate });
    gather(shared, &mut keeper, &mut groups, lanes);
    let word = last_word(table, keeper);
    Ok(outcome_at(lanes.as_slice(), word))
}
