// Blocks, one after the other, from the compiled tables.
ghost use Rattle.std.specs.Prelude.{◌≡◌};
ghost use Rattle.syntax.specs.Sheet.{header_at};
ghost use Rattle.machine.specs.BlockRuns.{played_of, opening_place, Served, CanTell, CanPlayOn, PlaysOn};

use super::rows::Given;
use super::rules::{Judges, Terms};
use super::{rows, rules};
use lattice::Table;
use store::Held;
use syntax::{Compiled, Labels, Row};
use values::Refused;

// What blocks are played by: the compiled tables, the order table, what the rule set judges, and the budget.
#[derive(Clone, Copy)]
pub struct Played<'a> {
    pub tables: &'a Compiled,
    pub order: &'a Table,
    pub judges: Judges,
    pub budget: u32,
}

// Where a run of blocks stands: the block and the row that are next, the steps done, and the entries that are free.
#[derive(Clone, Copy)]
pub struct Place {
    pub block: usize,
    pub row: usize,
    pub steps: u32,
    pub free: usize,
}

// A run of blocks that finished: the steps done, and the entries that are free.
#[derive(Clone, Copy)]
pub struct Finished {
    pub steps: u32,
    pub free: usize,
}

// One that was halted: the step at a row was refused.
#[derive(Clone, Copy)]
pub struct Halted {
    pub row: usize,
    pub refused: Refused,
}

// Where a run opens: at the first block's first row, with no step done and every entry free.
pub fn opening(entries: usize) -> Place
    ensures { result ≡ opening_place entries }
{
    Place {
        block: 0,
        row: 0,
        steps: 0,
        free: entries,
    }
}

// What a block of the programme runs under.
pub fn block_terms(sheet: &[u8], table: &Table, judges: Judges, block: usize) -> Terms
    requires { CanTell sheet.now block }
    ensures { Served table.now judges (header_at sheet.now block) result }
{
    rules::terms_of(table, judges, programme::header_at(sheet, block))
}

// Plays the blocks from a place on, which may stand inside a block, under the branch labels in force there. Each block's first row follows the end
// row of the one before; its branch label is the top, at every depth to begin with.
pub fn play_blocks(
    sheet: &[u8],
    k: usize,
    by: Played,
    labels: &mut Labels,
    held: &mut Held,
    from: Place,
) -> Result<Finished, Halted>
    requires { CanPlayOn (played_of by) sheet.now k from labels.old held.old }
    ensures { PlaysOn (played_of by.entry)
        sheet.now k from labels.old held.old labels.new held.new result }
{
    let mut at = rows::Place {
        row: from.row,
        steps: from.steps,
        free: from.free,
    };
    for block in from.block..k {
        let terms = block_terms(sheet, by.order, by.judges, block);
        let given = Given {
            tables: by.tables,
            masks: &by.order.masks,
            terms: &terms,
            budget: by.budget,
        };
        match rows::go(given, labels, held, at) {
            Ok(end) => {
                *labels = [terms.top; Row::DEPTHS];
                at = rows::Place {
                    row: end.row + 1,
                    steps: end.steps,
                    free: end.free,
                };
            }
            Err(stop) => {
                return Err(Halted {
                    row: stop.row,
                    refused: Refused {
                        refusal: stop.refusal,
                        block,
                        offset: stop.offset,
                        steps: stop.steps,
                    },
                });
            }
        }
    }
    Ok(Finished {
        steps: at.steps,
        free: at.free,
    })
}
