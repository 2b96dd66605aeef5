// The journal is filled by a second pass, over a run that is known to finish: it makes the writes again, and hands out the entry of each.
ghost use Rattle.std.specs.Prelude.{◌≡◌, ◌<◌, length};
ghost use Rattle.values.specs.Value.{kinds};
ghost use Rattle.machine.specs.Machine.{given_of, place};
ghost use Rattle.machine.specs.BlockRuns.{played_of};
ghost use Rattle.runner.specs.Journal.{CanMake, Makes, replayed, seated, Going, Wrote, Ready, Filled};

use machine::blocks::{Place, Played};
use machine::rows::{Given, Stop};
use machine::slots::Grounds;
use machine::steps::Use;
use machine::{blocks, rows, slots};
use store::{Answer, Entry, Held, Value};
use syntax::{Labels, Row};

// What the first pass found: the answer, and how many writes there are to make again.
#[derive(Clone, Copy)]
pub(crate) struct First {
    pub(crate) answer: Answer,
    pub(crate) writes: usize,
}

// A value as a slot's row has it.
fn value_of(kind: u64, payload: u64) -> Value
    requires { kind < kinds }
    ensures { result ≡ record { kind = kind; payload = payload } }
{
    Value {
        kind: kind as u8,
        payload,
    }
}

// Makes the assignment at the row where a run stopped, which is known to be allowed, and hands out its entry.
fn make_write(by: Given, labels: &Labels, held: &mut Held, block: usize, stop: Stop) -> Entry
    requires { CanMake (given_of by) (place stop.row stop.steps 0 labels.now held.old) }
    ensures { Makes (given_of by.entry)
        (place stop.row stop.steps 0 labels.now held.old) block held.new result }
{
    let Row::Assign {
        depth,
        offset,
        target,
        value,
    } = &by.tables.rows[stop.row]
    else {
        unreachable!()
    };
    let judged = Grounds {
        tables: by.tables,
        held,
        masks: by.masks,
        terms: by.terms,
    };
    let branch = labels[usize::from(*depth)];
    let write = judged
        .assign::<{ Use::SECOND_PASS }>(usize::from(*target), usize::from(*value), branch)
        .unwrap();
    let old = slots::row_of(held, write.slot);
    slots::put(held, write);
    Entry {
        block,
        offset: usize::from(*offset),
        slot: write.slot as usize,
        old: value_of(old.kind, old.payload),
        new: value_of(write.kind, write.payload),
    }
}

// The next write, made in the held store and handed out by value: the run goes on to its next assignment, past the ends of blocks.
fn next_write(
    programme: &[u8],
    by: Played,
    labels: &mut Labels,
    held: &mut Held,
    place: &mut Place,
) -> Entry
    requires { Going (replayed programme.now (played_of by)) (seated labels.old held.old place.old) }
    ensures { Wrote (replayed programme.now (played_of by.entry)) (seated labels.old held.old place.old) (seated labels.new held.new place.new) result }
{
    // (No `for`: a block's run goes on until an assignment is due, or its end.)
    loop {
        let block = place.block;
        let terms = blocks::block_terms(programme, by.order, by.judges, block);
        let given = Given {
            tables: by.tables,
            masks: &by.order.masks,
            terms: &terms,
            budget: by.budget,
        };
        let from = rows::Place {
            row: place.row,
            steps: place.steps,
            free: 0,
        };
        match rows::go(given, labels, held, from) {
            Ok(end) => {
                *labels = [lattice::top_mask(by.order.n); Row::DEPTHS];
                place.block += 1;
                place.row = end.row + 1;
                place.steps = end.steps;
            }
            // No entry is free for the assignment at this row.
            Err(stop) => {
                place.row = stop.row + 1;
                place.steps = stop.steps + 1;
                return make_write(given, labels, held, block, stop);
            }
        }
    }
}

// Fills the journal with the writes of a run that finished. Where it opens, the branch label is the top, at every depth to begin with.
pub(crate) fn replay(
    journal: &mut [Entry],
    programme: &[u8],
    by: Played,
    held: &mut Held,
    writes: usize,
)
    requires { Ready (replayed programme.now (played_of by)) held.old writes (length journal.old) }
    ensures { Filled (replayed programme.now (played_of by.entry)) held.old writes journal.old journal.new }
{
    let mut labels = [lattice::top_mask(by.order.n); Row::DEPTHS];
    let mut place = blocks::opening(0);
    for entry in &mut journal[..writes] {
        *entry = next_write(programme, by, &mut labels, held, &mut place);
    }
}
