// The path to a row of a block, written into a pause sheet: each byte of the code is walked once at most.
ghost use Rattle.std.specs.Prelude.{◌≡◌, ◌+◌, ◌-◌, ◌≤◌, ◌<◌, length, get_or, set};
ghost use Rattle.pausing.specs.Stretches.{pause_width, most_open, children_at, labels_at};
ghost use Rattle.paths.specs.SheetPaths.{CanTrace, CanTraceChild, Traces, TracesChild};

use super::walking;
use super::walking::Extent;
use programme::Spot;
use std::ops::ControlFlow;
use syntax::Row;

// A pause sheet: what stands before the path's entries. (Only the constants are used: it is held as bytes.)
#[derive(Clone, Copy)]
pub struct Checkpoint {
    pub steps: u32,
    pub open: u8,
    pub block: u8,
}

impl Checkpoint {
    // The bytes of a sheet.
    pub const WIDTH: usize = 256;
    // The bytes of the steps; the path's length follows them.
    pub const STEPS: usize = 4;

    pub const OPEN: usize = Checkpoint::STEPS;

    pub const BLOCK: usize = Checkpoint::OPEN + 1;
    // Where the children start; the labels follow them.
    pub const CHILDREN: usize = Checkpoint::BLOCK + 1;
    // The most entries of a path.
    pub const MOST_OPEN: usize = 31;
}

// The principals of the labels by depth.
pub(crate) type Names = [u8; Row::DEPTHS];

// What comes of looking for a row in a command: it is past the command, and the search goes on; or it is there, and the path to it has so many entries.
pub(crate) type Search = ControlFlow<usize, Extent>;

// Writes entry i of a path of `size` entries.
fn write_entry(sheet: &mut [u8], size: usize, i: usize, child: u8, label: u8)
    requires { (length sheet.old ≡ pause_width) × (size ≤ most_open) × (i < size) }
    ensures { sheet.new ≡ set (set sheet.old (children_at + i) child) (labels_at size + i) label }
{
    sheet[Checkpoint::CHILDREN + i] = child;
    sheet[Checkpoint::CHILDREN + size + i] = label;
}

// What a path is written from: a block's code, and the principals of the labels by depth.
#[derive(Clone, Copy)]
pub(crate) struct Trail<'a> {
    pub(crate) code: &'a [u8],
    pub(crate) names: &'a Names,
}

// Where a row is looked for: in the command at `at`, inside `depth` guards, after `len` entries. The row is counted from the command's first.
#[derive(Clone, Copy)]
pub(crate) struct Sought {
    pub(crate) at: usize,
    pub(crate) row: usize,
    pub(crate) depth: usize,
    pub(crate) len: usize,
}

impl Trail<'_> {
    // Looks for a row. Where it is there, the path to it is written as the entries from the `len`-th on, the last of them first, as only then the
    // number of entries is known.
    #[cycle(trace)]
    pub(crate) fn trace(&self, sheet: &mut [u8], s: Sought) -> Search
        requires { CanTrace self.now.code.now sheet.old s }
        ensures { Traces self.now.code.now self.now.names.now sheet.old sheet.new s result }
    {
        match self.code[s.at] {
            Spot::SEQUENCE => self.trace_all(sheet, s),
            Spot::IF => self.trace_if(sheet, s),
            Spot::WHILE => self.trace_while(sheet, s),
            _ => {
                let next = walking::span_at(self.code, s.at);
                if s.row < next.rows {
                    ControlFlow::Break(s.len)
                } else {
                    ControlFlow::Continue(next)
                }
            }
        }
    }

    // The same of a child of a command, whose entry is written too: the number of the child, and the label inside it.
    #[cycle(trace)]
    fn trace_child(&self, sheet: &mut [u8], child: u8, s: Sought) -> Search
        requires { CanTraceChild self.now.code.now sheet.old s }
        ensures { TracesChild self.now.code.now self.now.names.now sheet.old sheet.new child s result }
    {
        let inside = Sought {
            len: s.len + 1,
            ..s
        };
        let found = self.trace(sheet, inside);
        if let ControlFlow::Break(size) = found {
            write_entry(sheet, size, s.len, child, self.names[s.depth]);
        }
        found
    }

    // The same of a sequence.
    #[cycle(trace)]
    fn trace_all(&self, sheet: &mut [u8], s: Sought) -> Search
        requires { CanTrace self.now.code.now sheet.old s × (get_or self.now.code.now s.at 0 ≡ 0x22) }
        ensures { Traces self.now.code.now self.now.names.now sheet.old sheet.new s result }
    {
        let mut here = s.at + 2;
        let mut row = s.row;
        for child in 0..self.code[s.at + 1] {
            let next = self.trace_child(sheet, child, Sought { at: here, row, ..s })?;
            here = next.end;
            row -= next.rows;
        }
        ControlFlow::Continue(Extent {
            end: here,
            rows: s.row - row,
        })
    }

    // The same of an if.
    #[cycle(trace)]
    fn trace_if(&self, sheet: &mut [u8], s: Sought) -> Search
        requires { CanTrace self.now.code.now sheet.old s × (get_or self.now.code.now s.at 0 ≡ 0x23) }
        ensures { Traces self.now.code.now self.now.names.now sheet.old sheet.new s result }
    {
        if s.row == 0 {
            return ControlFlow::Break(s.len);
        }
        let then = Sought {
            at: walking::skip_expr(self.code, s.at + 1),
            row: s.row - 1,
            depth: s.depth + 1,
            ..s
        };
        let first = self.trace_child(sheet, 0, then)?;
        let other = Sought {
            at: first.end,
            row: s.row.saturating_sub(first.rows + 2),
            ..then
        };
        let second = self.trace_child(sheet, 1, other)?;
        ControlFlow::Continue(Extent {
            end: second.end,
            rows: 1 + first.rows + walking::jump_rows(second.rows) + second.rows,
        })
    }

    // The same of a while.
    #[cycle(trace)]
    fn trace_while(&self, sheet: &mut [u8], s: Sought) -> Search
        requires { CanTrace self.now.code.now sheet.old s × (get_or self.now.code.now s.at 0 ≡ 0x24) }
        ensures { Traces self.now.code.now self.now.names.now sheet.old sheet.new s result }
    {
        if s.row == 0 {
            return ControlFlow::Break(s.len);
        }
        let inside = Sought {
            at: walking::skip_expr(self.code, s.at + 1),
            row: s.row - 1,
            depth: s.depth + 1,
            ..s
        };
        let body = self.trace_child(sheet, 0, inside)?;
        ControlFlow::Continue(Extent {
            end: body.end,
            rows: 1 + body.rows + 1,
        })
    }
}
