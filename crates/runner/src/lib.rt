// The runner: one call, from its arguments and sheets to its answer, output and journal. Definitions in specs/, laws in proofs/.
#![tactic(auto)]

ghost use Rattle.std.specs.Prelude.{◌≡◌, length};
ghost use Rattle.syntax.specs.Sheet.{k_of};
ghost use Rattle.values.specs.Result.{says};
ghost use Rattle.calculus.specs.Run.{call, answer, output, journal as journalAfter};
ghost use Rattle.machine.specs.BlockRuns.{played_of};
ghost use Rattle.runner.specs.WholeRun.{answered, Finishes, CanFinish, Runs};

use journal::First;
use machine::blocks;
use machine::blocks::Played;
use store::{Answer, Entry, Held, HeldSlot, Opened};
use syntax::{Compiled, Row};
use values::{Refusal, Refused};

mod carrying;
mod journal;
mod outputs;
mod ready;
mod stretches;

pub use carrying::{carry_on, start};
pub use paths::trail::Checkpoint;

// What a run that finished answers.
fn finishing(programme: &[u8], steps: u32) -> Answer
    ensures { result ≡ says 0 (k_of programme.now) 0 steps }
{
    Answer {
        number: Answer::FINISHED,
        block: programme::blocks_of(programme),
        offset: 0,
        steps,
    }
}

// What a call answers: as its run finished, or why it was refused, and where.
#[tactic(auto, unfolding(crate::specs::WholeRun::answered))]
fn answered(run: Result<Answer, Refused>) -> Answer
    ensures { result ≡ answered run }
{
    run.unwrap_or_else(Answer::from)
}

// The first pass: the output's length (12), then the blocks, over a copy of the store. A refusal leaves the output as it was.
fn first_pass(
    programme: &[u8],
    by: Played,
    slots: usize,
    entries: usize,
    held: &Held,
    out: &mut [u8],
) -> Result<First, Refused>
    requires { CanFinish slots (played_of by) programme.now held.now }
    ensures { Finishes slots (played_of by.entry)
        entries programme.now held.now out.old out.new result }
{
    if out.len() != Opened::SLOT_WIDTH * slots {
        return Err(Refused::from(Refusal::OutputLength));
    }
    let mut work = *held;
    let mut labels = [lattice::top_mask(by.order.n); Row::DEPTHS];
    let k = programme::blocks_of(programme);
    let from = blocks::opening(entries);
    match blocks::play_blocks(programme, k, by, &mut labels, &mut work, from) {
        Ok(finished) => {
            store::write_store(&work, slots, out);
            Ok(First {
                answer: finishing(programme, finished.steps),
                writes: entries - finished.free,
            })
        }
        Err(halted) => Err(halted.refused),
    }
}

// Both passes: what every run begins with (11; 1 to 10), the first pass, and the second, from the opening store and by the same tables.
fn both_passes(
    store: &[u8],
    programme: &[u8],
    rule: u32,
    budget: u32,
    out: &mut [u8],
    journal: &mut [Entry],
) -> Result<Answer, Refused>
    ensures { Runs (call store.now programme.now rule budget (length out.old) (length journal.old)) out.old journal.old out.new journal.new result }
{
    let mut compiled = Compiled::blank();
    let mut held = [HeldSlot::EMPTY; Opened::MOST_SLOTS];
    let ready = ready::prepare(store, programme, rule, budget, &mut compiled, &mut held)?;
    let by = Played {
        tables: &compiled,
        order: &ready.opened.table,
        judges: ready.judges,
        budget,
    };
    let first = first_pass(programme, by, ready.opened.slots, journal.len(), &held, out)?;
    journal::replay(journal, programme, by, &mut held, first.writes);
    Ok(first.answer)
}

// One run. The answer, every byte of the output and every entry of the journal are the definitions', for every input.
pub fn run(
    store: &[u8],
    programme: &[u8],
    rule: u32,
    budget: u32,
    out: &mut [u8],
    journal: &mut [Entry],
) -> Answer
    ensures { (result ≡ answer (call store.now programme.now rule budget (length out.old) (length journal.old)))
        × (out.new ≡ output (call store.now programme.now rule budget (length out.old) (length journal.old)) out.old)
        × (journal.new ≡ journalAfter (call store.now programme.now rule budget (length out.old) (length journal.old)) journal.old) }
{
    answered(both_passes(store, programme, rule, budget, out, journal))
}
