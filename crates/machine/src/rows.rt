// The machine: over the compiled tables alone, from any row, with a branch label for each depth.
ghost use Rattle.std.specs.Prelude.{◌≡◌};
ghost use Rattle.syntax.specs.Rows.{offset_of};
ghost use Rattle.machine.specs.Answers.{control};
ghost use Rattle.machine.specs.Machine.{given_of, place_of, CanGo, IsAssign, IsGuard, Moved, Due, Went};

use super::rules::Terms;
use super::slots;
use super::slots::Grounds;
use super::steps::Use;
use lattice::Masks;
use store::Held;
use syntax::{Compiled, Labels, Row};
use values::Refusal;

// What a run goes by: the compiled tables, the masks of the principals, what the block runs under, and the budget.
#[derive(Clone, Copy)]
pub struct Given<'a> {
    pub tables: &'a Compiled,
    pub masks: &'a Masks,
    pub terms: &'a Terms,
    pub budget: u32,
}

// Where a run stands in a block: the row that is next, the steps done, and the entries that are free.
#[derive(Clone, Copy)]
pub struct Place {
    pub row: usize,
    pub steps: u32,
    pub free: usize,
}

// The step at a row was refused, its command's offset being `offset`.
#[derive(Clone, Copy)]
pub struct Stop {
    pub refusal: Refusal,
    pub row: usize,
    pub offset: usize,
    pub steps: u32,
}

// 17 comes before all that a step judges.
#[tactic(auto, unfolding(crate::specs::Machine::Due))]
fn due(at: Place, budget: u32) -> Result<(), Refusal>
    ensures { Due at budget result }
{
    if at.steps == budget {
        return Err(Refusal::BudgetSpent);
    }
    Ok(())
}

// An assignment: there must be a free entry for it (18); it is judged under its depth's branch label, and written.
fn take_assign(
    by: Given,
    labels: &Labels,
    held: &mut Held,
    at: Place,
    depth: u16,
    target: u16,
    value: u16,
) -> Result<Place, Refusal>
    requires { IsAssign (given_of by) (place_of at labels.now held.old) depth target value }
    ensures { Moved (given_of by.entry)
        (place_of at labels.now held.old) labels.now held.new (control at result) }
{
    due(at, by.budget)?;
    if at.free == 0 {
        return Err(Refusal::JournalFull);
    }
    let judged = Grounds {
        tables: by.tables,
        held,
        masks: by.masks,
        terms: by.terms,
    };
    let branch = labels[usize::from(depth)];
    let write = judged.assign::<{ Use::FIRST_PASS }>(
        usize::from(target),
        usize::from(value),
        branch,
    )?;
    slots::put(held, write);
    Ok(Place {
        row: at.row + 1,
        steps: at.steps + 1,
        free: at.free - 1,
    })
}

// A guard: whichever way it goes, the depth inside it has the meet of the label outside and its own. (Its other row is read only where it fails: so the
// next row is chosen by a branch, which the processor guesses. Chosen by a selection, every load behind it would wait for the guard.)
fn take_guard(
    by: Given,
    labels: &mut Labels,
    held: &Held,
    at: Place,
    depth: u16,
    operand: u16,
    other: &u16,
) -> Result<Place, Refusal>
    requires { IsGuard (given_of by) (place_of at labels.old held.now) depth operand other.now }
    ensures { Moved (given_of by.entry)
        (place_of at labels.old held.now) labels.new held.now (control at result) }
{
    due(at, by.budget)?;
    let judged = Grounds {
        tables: by.tables,
        held,
        masks: by.masks,
        terms: by.terms,
    };
    let guard = judged.judge(usize::from(operand))?;
    let depth = usize::from(depth);
    labels[depth + 1] = labels[depth] & guard.label;
    if guard.passes {
        return Ok(Place {
            row: at.row + 1,
            steps: at.steps + 1,
            free: at.free,
        });
    }
    Ok(Place {
        row: usize::from(*other),
        steps: at.steps + 1,
        free: at.free,
    })
}

// The offset of a row's command.
#[tactic(auto, unfolding(syntax::specs::Rows::offset_of))]
fn offset_of(row: Row) -> usize
    ensures { result ≡ offset_of row }
{
    match row {
        Row::Assign { offset, .. } => usize::from(offset),
        Row::Guard { offset, .. } => usize::from(offset),
        Row::End => 0,
        Row::Jump { target: _ } => 0,
    }
}

// Runs from a row on, with the labels in force there, to its block's end or to the first step that is refused. Where the budget is spent or no
// entry is free, the run goes on from the row that it stopped at, with the labels and the store as they are then.
pub fn go(by: Given, labels: &mut Labels, held: &mut Held, from: Place) -> Result<Place, Stop>
    requires { CanGo (given_of by) (place_of from labels.old held.old) }
    ensures { Went (given_of by.entry)
        (place_of from labels.old held.old) labels.new held.new result }
{
    let mut at = from;
    // (No `for`: which row is next, and whether one is, stands in the tables.)
    loop {
        let row = &by.tables.rows[at.row];
        // (Asked in turn: one `match` on the four cases is compiled to a jump by a table, which a processor may not guess.)
        let next = if let Row::Jump { target } = row {
            Ok(Place {
                row: usize::from(*target),
                steps: at.steps,
                free: at.free,
            })
        } else if let Row::Assign {
            depth,
            offset: _,
            target,
            value,
        } = row
        {
            take_assign(by, labels, held, at, *depth, *target, *value)
        } else if let Row::Guard {
            depth,
            offset: _,
            operand,
            other,
        } = row
        {
            take_guard(by, labels, held, at, *depth, *operand, other)
        } else {
            return Ok(at);
        };
        match next {
            Ok(place) => {
                at = place;
            }
            // (The row is read again: held since the first reading, it takes a register from every step.)
            Err(refusal) => {
                return Err(Stop {
                    refusal,
                    row: at.row,
                    offset: offset_of(by.tables.rows[at.row]),
                    steps: at.steps,
                });
            }
        }
    }
}
