// Between a row of a block and a pause sheet: the path of the commands that are open.
ghost use Rattle.std.specs.Prelude.{◌≡◌, ℕ, ◌+◌, ◌-◌, ◌≤◌, ◌<◌, true, List, length, get_or, IsTrue, ◌↔◌, EachIndex, slice_index};
ghost use Rattle.lattice.specs.Order.{Label, most_principals, good};
ghost use Rattle.values.specs.Result.{ok};
ghost use Rattle.syntax.specs.Syntax.{Cmd};
ghost use Rattle.syntax.specs.Code.{read_block};
ghost use Rattle.pausing.specs.Stretches.{pause_width, most_open, open_in, entry_in};
ghost use Rattle.lattice.specs.HeldLabels.{LabelHeld};
ghost use Rattle.pausing.specs.RowPaths.{LabelsHeld};
ghost use Rattle.paths.specs.CodeLayout.{Sits, SomeCmd};
ghost use Rattle.paths.specs.SheetPaths.{fits, EntryAs, FollowsAs, path_from, CanFind, SomeLabel, SomeLabels};
ghost use Rattle.paths.specs.Checkpoint.{Resumes, CanResume, Pauses, CanPause};

use super::trail::{Checkpoint, Names, Sought, Trail};
use super::walking;
use super::walking::Part;
use lattice::Table;
use programme::Labels;
use std::ops::ControlFlow;
use syntax::Row;

// A child that may be gone into, with the label inside it.
#[derive(Clone, Copy)]
pub struct Entry {
    pub part: Part,
    pub label: usize,
}

// The path of a pause sheet, of `size` entries, that is read against a block's code and a good order table.
#[derive(Clone, Copy)]
struct Path<'a> {
    code: &'a [u8],
    sheet: &'a [u8],
    table: &'a Table,
    size: usize,
    ghost ordered: { good table.now ≡ true },
    ghost whole: { length sheet.now ≡ pause_width },
    ghost counted: { size ≡ open_in sheet.now },
    ghost short: { size ≤ most_open },
}

impl Path<'_> {
    // Goes into the child that entry i names, from the command at `at`, whose label is `outer`.
    fn go_in(&self, at: usize, i: usize, outer: usize) -> Option<Entry>
        requires { SomeCmd self.now.code.now at × (i < self.now.size) × (outer < self.now.table.now.n) }
        ensures { (c : Cmd) → Sits self.now.code.now c at
            → EntryAs self.now.code.now self.now.table.now at c outer (entry_in self.now.sheet.now i) result }
    {
        let k = usize::from(self.sheet[Checkpoint::CHILDREN + i]);
        let label = usize::from(self.sheet[Checkpoint::CHILDREN + self.size + i]);
        let part = walking::child_at(self.code, at, k)?;
        if label_fits(self.table, part.deeper, label, outer) {
            Some(Entry { part, label })
        } else {
            None
        }
    }

    // Follows the path from the block's command on, whose label is `top`: the row that it leads to, if it takes a step. On the way the labels by
    // depth are filled in.
    fn find(&self, labels: &mut Labels, top: usize) -> Option<usize>
        requires { CanFind self.now.code.now self.now.table.now labels.old top }
        ensures { (c : Cmd) (l : List Label) → Sits self.now.code.now c 0 → LabelsHeld self.now.table.now l labels.old → get_or l 0 0 ≡ top
            → FollowsAs self.now.table.now c 0 top (path_from self.now.sheet.now self.now.size 0) 0 l labels.new result }
    {
        let mut at = 0;
        let mut depth = 0;
        let mut outer = top;
        let mut row = 0;
        for i in 0..self.size {
            let child = self.go_in(at, i, outer)?;
            at = child.part.there;
            depth += child.part.deeper;
            outer = child.label;
            row += child.part.rows;
            labels[depth] = self.table.masks[outer];
        }
        walking::takes_step(self.code, at).then_some(row)
    }
}

// Whether a label may stand inside a child, so many guards deeper: in a sequence it equals the one outside, else it stands at or below that.
fn label_fits(table: &Table, deeper: usize, label: usize, outer: usize) -> bool
    requires { outer < most_principals }
    ensures { result ≡ fits table.now deeper label outer }
{
    if deeper == 0 {
        label == outer
    } else {
        label < table.n && lattice::has_bit(table.masks[outer], label)
    }
}

// The principal that has this mask.
fn principal(table: &Table, mask: u32) -> u8
    requires { (good table.now ≡ true) × SomeLabel table.now mask }
    ensures { LabelHeld table.now result mask }
{
    let found = table.masks[..table.n].iter().position(|m| *m == mask);
    found.unwrap() as u8
}

// The principals of the labels by depth.
fn names_of(table: &Table, labels: &Labels) -> Names
    requires { SomeLabels table.now labels.now }
    ensures { (l : List Label) → LabelsHeld table.now l labels.now → result ≡ l }
{
    let mut names = [0; Row::DEPTHS];
    for (j, mask) in labels.iter().enumerate() {
        names[j] = principal(table, *mask);
    }
    names
}

// Whether all bytes are 0.
fn all_zero(bytes: &[u8]) -> bool
    ensures { IsTrue result ↔ EachIndex bytes.now (λ k. slice_index bytes.now k ≡ 0) }
{
    bytes.iter().all(|b| *b == 0)
}

// The row of a block, and the labels by depth, where a sheet takes it up. The labels come as the top's mask throughout.
pub fn resume(code: &[u8], sheet: &[u8], table: Table, labels: &mut Labels) -> Option<usize>
    requires { CanResume code.now sheet.now table labels.old }
    ensures { (slots : ℕ) (c : Cmd) → read_block slots code.now ≡ ok c → Resumes table c sheet.now labels.new result }
{
    let size = usize::from(sheet[Checkpoint::OPEN]);
    if Checkpoint::MOST_OPEN < size || !all_zero(&sheet[Checkpoint::CHILDREN + 2 * size..]) {
        return None;
    }
    let top = usize::from(principal(&table, labels[0]));
    let path = Path {
        code,
        sheet,
        table: &table,
        size,
    };
    path.find(labels, top)
}

// Writes the pause sheet of a run that stands at a row of a block, counted from the block's first row.
pub fn pause(
    code: &[u8],
    table: Table,
    labels: &Labels,
    sheet: &mut [u8],
    row: usize,
    steps: u32,
    block: u8,
)
    requires { CanPause code.now table labels.now sheet.old row }
    ensures { Pauses code.now table labels.now row steps block sheet.new }
{
    sheet.fill(0);
    sheet[..Checkpoint::STEPS].copy_from_slice(&steps.to_le_bytes());
    sheet[Checkpoint::BLOCK] = block;
    let names = names_of(&table, labels);
    let trail = Trail {
        code,
        names: &names,
    };
    let sought = Sought {
        at: 0,
        row,
        depth: 0,
        len: 0,
    };
    if let ControlFlow::Break(size) = trail.trace(sheet, sought) {
        sheet[Checkpoint::OPEN] = size as u8;
    }
}
