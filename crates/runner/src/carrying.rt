// The calls of a run in stretches: from its start, and from a checkpoint.
ghost use Rattle.std.specs.Prelude.{◌≡◌, ◌*◌, ◌≤◌, eqb, length};
ghost use Rattle.lattice.specs.Tests.{◌and◌};
ghost use Rattle.values.specs.Value.{slot_width};
ghost use Rattle.store.specs.Sheet.{most_slots};
ghost use Rattle.pausing.specs.Stretches.{pause_width, opening, checkpoint, stretch, run_stretch, ComesTo};
ghost use Rattle.runner.specs.StretchRun.{from_of, AllFit, CanStand, Stands, EndsWith};

use super::{answered, ready, stretches};
use machine::blocks;
use machine::blocks::{Place, Played};
use machine::rules::Judges;
use paths::trail::Checkpoint;
use store::{Answer, Held, HeldSlot, Opened};
use syntax::{Compiled, Labels, Row};
use values::{Refusal, Refused};

// Where a stretch goes on from: the opening store; or an old output and its pause sheet, which are only read. (No Option: each case is one of the two
// calls, as `From` of the definitions says.)
#[derive(Clone, Copy)]
pub(crate) enum Origin<'a> {
    Opening,
    Checkpoint { output: &'a [u8], sheet: &'a [u8] },
}

// Whether a buffer has room for just so many slots, and another for a pause sheet.
fn fitting(out: usize, pause: usize, slots: usize) -> bool
    requires { slots ≤ most_slots }
    ensures { result ≡ eqb out (slot_width * slots) and eqb pause pause_width }
{
    out == Opened::SLOT_WIDTH * slots && pause == Checkpoint::WIDTH
}

// Whether all that is lent to a stretch has its length (12): the buffers to write, and what it goes on from.
fn all_fit(from: Origin, slots: usize, out: usize, pause: usize) -> bool
    requires { slots ≤ most_slots }
    ensures { AllFit slots (from_of from.entry) out pause result }
{
    let fit = fitting(out, pause, slots);
    match from {
        Origin::Opening => fit,
        Origin::Checkpoint { output, sheet } => { fit && fitting(output.len(), sheet.len(), slots) }
    }
}

// Where a stretch stands when its store is opened: at the first block's first row, or where its checkpoint leaves it (19).
fn stand(
    programme: &[u8],
    opened: Opened,
    from: Origin,
    labels: &mut Labels,
    held: &mut Held,
) -> Result<Place, Refusal>
    requires { CanStand opened programme.now (from_of from) labels.old held.old }
    ensures { Stands opened programme.now (from_of from.entry) held.old labels.new held.new result }
{
    match from {
        Origin::Opening => Ok(blocks::opening(Judges::MOST_BUDGET as usize)),
        Origin::Checkpoint { output, sheet } => {
            stretches::take_up(programme, opened, output, sheet, labels, held).ok_or(
                Refusal::Checkpoint,
            )
        }
    }
}

// A stretch: what every run begins with (11; 1 to 10), the lengths of what is lent (12), the checkpoint (19), then the blocks. (Put in line, so that its
// tables take the room that a caller's other calls take.)
#[inline(always)]
fn stretch(
    store: &[u8],
    programme: &[u8],
    rule: u32,
    budget: u32,
    from: Origin,
    out: &mut [u8],
    pause: &mut [u8],
) -> Result<Answer, Refused>
    ensures { EndsWith (run_stretch (from_of from.entry) (stretch store.now programme.now rule budget (length out.old) (length pause.old)))
        out.old pause.old out.new pause.new result }
{
    let mut compiled = Compiled::blank();
    let mut held = [HeldSlot::EMPTY; Opened::MOST_SLOTS];
    let ready = ready::prepare(store, programme, rule, budget, &mut compiled, &mut held)?;
    let opened = ready.opened;
    if !all_fit(from, opened.slots, out.len(), pause.len()) {
        return Err(Refused::from(Refusal::OutputLength));
    }
    let mut labels = [lattice::top_mask(opened.table.n); Row::DEPTHS];
    let place = stand(programme, opened, from, &mut labels, &mut held)?;
    let by = Played {
        tables: &compiled,
        order: &opened.table,
        judges: ready.judges,
        budget: budget.max(place.steps),
    };
    let end = blocks::play_blocks(
        programme,
        programme::blocks_of(programme),
        by,
        &mut labels,
        &mut held,
        place,
    );
    stretches::settle(programme, opened, &labels, &held, end, out, pause)
}

// A run by stretches, from its start. Out of budget, it answers 17 by writing the output so far and a pause sheet; finished, it writes the output; any
// other refusal leaves both as they were. The answer and every byte of both are the definitions', for every input.
pub fn start(
    store: &[u8],
    programme: &[u8],
    rule: u32,
    budget: u32,
    out: &mut [u8],
    pause: &mut [u8],
) -> Answer
    ensures { ComesTo opening (stretch store.now programme.now rule budget (length out.old) (length pause.old))
        out.old pause.old out.new pause.new result }
{
    answered(stretch(store, programme, rule, budget, Origin::Opening, out, pause))
}

// Carries a run on from an old output and an old pause sheet, which are only read. The budget includes the steps so far.
pub fn carry_on(
    store: &[u8],
    programme: &[u8],
    rule: u32,
    budget: u32,
    old: &[u8],
    sheet: &[u8],
    out: &mut [u8],
    pause: &mut [u8],
) -> Answer
    ensures { ComesTo (checkpoint old.now sheet.now) (stretch store.now programme.now rule budget (length out.old) (length pause.old))
        out.old pause.old out.new pause.new result }
{
    let from = Origin::Checkpoint { output: old, sheet };
    answered(stretch(store, programme, rule, budget, from, out, pause))
}
