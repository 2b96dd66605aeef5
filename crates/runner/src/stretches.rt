// Runs in stretches: one that is out of budget is paused, and carried on later from its output and its pause sheet.
ghost use Rattle.runner.specs.StretchRun.{CanLocate, Locates, CanWritePause, WritesPause, CanSettle, Settles, CanTakeUp, TakesUp};

use super::{finishing, outputs};
use lattice::Table;
use machine::blocks::{Finished, Halted, Place};
use machine::rules::Judges;
use paths::trail::Checkpoint;
use paths::{checkpoint, walking};
use store::{Answer, Held, Opened};
use syntax::{Labels, Sizes};
use values::{Refusal, Refused};

// Where a block's code lies in its programme sheet, and which row is its first.
#[derive(Clone, Copy)]
pub struct Located {
    pub start: usize,
    pub end: usize,
    pub row: usize,
}

// Finds a block: the lengths of those before it are added up, and so are their rows, each with its end row.
fn locate(programme: &[u8], block: u8) -> Located
    requires { CanLocate programme.now block }
    ensures { Locates programme.now block result }
{
    let k = programme::blocks_of(programme);
    let mut start = Sizes::WIDTH + Sizes::ENTRIES * k;
    let mut row = 0;
    for i in 0..block {
        let end = start + programme::length_at(programme, i);
        row += walking::rows_in(programme, start, end) + 1;
        start = end;
    }
    let end = start + programme::length_at(programme, block);
    Located { start, end, row }
}

// Writes the pause sheet of a run that is out of budget at a row of a block.
fn write_pause(programme: &[u8], table: Table, labels: &Labels, halted: Halted, pause: &mut [u8])
    requires { CanWritePause programme.now table labels.now halted.refused.block halted.row pause.old }
    ensures { WritesPause programme.now table labels.now halted.refused.block halted.row halted.refused.steps pause.new }
{
    let block = halted.refused.block as u8;
    let code = locate(programme, block);
    checkpoint::pause(
        &programme[code.start..code.end],
        table,
        labels,
        pause,
        halted.row - code.row,
        halted.refused.steps,
        block,
    );
}

// What the end of a stretch answers and writes: finished, the output; out of budget, the output and the pause sheet; refused otherwise, neither.
pub(crate) fn settle(
    programme: &[u8],
    opened: Opened,
    labels: &Labels,
    held: &Held,
    end: Result<Finished, Halted>,
    out: &mut [u8],
    pause: &mut [u8],
) -> Result<Answer, Refused>
    requires { CanSettle opened programme.now labels.now held.now end out.old pause.old }
    ensures { Settles opened programme.now labels.now held.now end out.old pause.old out.new pause.new result }
{
    match end {
        Ok(finished) => {
            store::write_store(held, opened.slots, out);
            Ok(finishing(programme, finished.steps))
        }
        Err(halted) => {
            if halted.refused.refusal == Refusal::BudgetSpent {
                store::write_store(held, opened.slots, out);
                write_pause(programme, opened.table, labels, halted, pause);
            }
            Err(halted.refused)
        }
    }
}

// Takes a run up where an old output and a pause sheet leave it (19). The labels come as the top's mask throughout, and the held store as it was opened.
pub(crate) fn take_up(
    programme: &[u8],
    opened: Opened,
    old: &[u8],
    sheet: &[u8],
    labels: &mut Labels,
    held: &mut Held,
) -> Option<Place>
    requires { CanTakeUp opened programme.now old.now sheet.now labels.old held.old }
    ensures { TakesUp opened programme.now old.now sheet.now held.old labels.new held.new result }
{
    let block = sheet[Checkpoint::BLOCK];
    let steps = store::number_at(sheet, 0, Checkpoint::STEPS) as u32;
    if programme::blocks_of(programme) <= usize::from(block)
        || !outputs::output_good(old, opened.slots, steps)
    {
        return None;
    }
    let Located { start, end, row } = locate(programme, block);
    let past = checkpoint::resume(&programme[start..end], sheet, opened.table, labels)?;
    outputs::open_output(old, opened.slots, held);
    Some(Place {
        block: usize::from(block),
        row: row + past,
        steps,
        free: Judges::MOST_BUDGET as usize,
    })
}
