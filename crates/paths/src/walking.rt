// Walking the code of a block that was read: where expressions and commands end, how many rows they have, and their parts.
// `code` and `at` stay two parameters: each call goes on at another place, so a struct of the two would be built anew at every call, and what it
// asks (`SomeCmd`, `SomeCmds` or `SomeExpr`) shown there as it is now.
ghost use Rattle.std.specs.Prelude.{◌≡◌, ℕ, ◌≤◌, length, get_or};
ghost use Rattle.values.specs.Result.{ok};
ghost use Rattle.syntax.specs.Code.{read_block};
ghost use Rattle.syntax.specs.Sheet.{lent};
ghost use Rattle.syntax.specs.Syntax.{Cmd};
ghost use Rattle.syntax.specs.Rows.{between, size};
ghost use Rattle.pausing.specs.Paths.{takes_step};
ghost use Rattle.paths.specs.CodeLayout.{Lies, Sits, SomeExpr, SomeCmd, Left, SomeCmds, SkipsExpr, Skips, SkipsAll, SomeBlock, blank_end};
ghost use Rattle.paths.specs.CodeParts.{PartAs};

use programme::Spot;
use values::Value;

// Where commands end, and how many rows they have.
#[derive(Clone, Copy)]
pub struct Extent {
    pub end: usize,
    pub rows: usize,
}

// A child of a command: where it lies, inside how many guards of the command, and how many rows after the command's first row it starts.
#[derive(Clone, Copy)]
pub struct Part {
    pub there: usize,
    pub deeper: usize,
    pub rows: usize,
}

// Where the expression at `at` ends.
pub(crate) fn skip_expr(code: &[u8], at: usize) -> usize
    requires { SomeExpr code.now at }
    ensures { SkipsExpr code.now at result }
{
    match code[at] {
        Spot::LITERAL => at + 1 + Value::WIDTH,
        Spot::READ => skip_expr(code, at + 1),
        _ => {
            let right = skip_expr(code, at + 1);
            skip_expr(code, right)
        }
    }
}

// The rows between the parts of an if whose else-part has n rows: a jump past it, or none.
pub(crate) fn jump_rows(n: usize) -> usize
    ensures { result ≡ between n }
{
    if n == 0 { 0 } else { 1 }
}

// Where the command at `at` ends, and how many rows it has.
#[cycle(span_all_span_at_span_if)]
pub(crate) fn span_at(code: &[u8], at: usize) -> Extent
    requires { SomeCmd code.now at }
    ensures { Skips code.now at result.end result.rows }
{
    match code[at] {
        Spot::SKIP => Extent {
            end: at + 1,
            rows: 0,
        },
        Spot::ASSIGN => {
            let value = skip_expr(code, at + 1);
            let end = skip_expr(code, value);
            Extent { end, rows: 1 }
        }
        Spot::SEQUENCE => span_all(code, at + 2, usize::from(code[at + 1])),
        Spot::IF => span_if(code, at),
        _ => {
            let body = skip_expr(code, at + 1);
            let inner = span_at(code, body);
            Extent {
                end: inner.end,
                rows: 1 + inner.rows + 1,
            }
        }
    }
}

// The same of an if.
#[cycle(span_all_span_at_span_if)]
fn span_if(code: &[u8], at: usize) -> Extent
    requires { SomeCmd code.now at × (get_or code.now at 0 ≡ 0x23) }
    ensures { Skips code.now at result.end result.rows }
{
    let part = skip_expr(code, at + 1);
    let first = span_at(code, part);
    let second = span_at(code, first.end);
    Extent {
        end: second.end,
        rows: 1 + first.rows + jump_rows(second.rows) + second.rows,
    }
}

// The same of the n commands from `at` on.
#[cycle(span_all_span_at_span_if)]
fn span_all(code: &[u8], at: usize, n: usize) -> Extent
    requires { SomeCmds code.now at n }
    ensures { SkipsAll code.now at n result.end result.rows }
{
    let mut end = at;
    let mut rows = 0;
    for _ in 0..n {
        let next = span_at(code, end);
        end = next.end;
        rows += next.rows;
    }
    Extent { end, rows }
}

// The rows of the block whose code stands in a programme sheet from `start` up to `end`. (Both as numbers: what is known is said of the sheet.)
pub fn rows_in(sheet: &[u8], start: usize, end: usize) -> usize
    requires { (start ≤ end) × (end ≤ length sheet.now) × SomeBlock (lent sheet.now start end) }
    ensures { (slots : ℕ) (c : Cmd) → read_block slots (lent sheet.now start end) ≡ ok c → result ≡ size c }
{
    span_at(&sheet[start..end], 0).rows
}

// Where the command at `at` ends, if it has no rows. Nothing is walked past the first row.
#[cycle(blank_all_blank_end)]
fn blank_end(code: &[u8], at: usize) -> Option<usize>
    requires { SomeCmd code.now at }
    ensures { (c : Cmd) (end : ℕ) → Lies code.now c at end → result ≡ blank_end (size c) end }
{
    match code[at] {
        Spot::SKIP => Some(at + 1),
        Spot::SEQUENCE => blank_all(code, at + 2, usize::from(code[at + 1])),
        _ => None,
    }
}

// The same of the n commands from `at` on.
#[cycle(blank_all_blank_end)]
fn blank_all(code: &[u8], at: usize, n: usize) -> Option<usize>
    requires { SomeCmds code.now at n }
    ensures { (end total : ℕ) → Left code.now at n 0 end total → result ≡ blank_end total end }
{
    let mut end = at;
    for _ in 0..n {
        end = blank_end(code, end)?;
    }
    Some(end)
}

// The rows between the parts of an if whose else-part is the command at `at`.
fn jump_before(code: &[u8], at: usize) -> usize
    requires { SomeCmd code.now at }
    ensures { (c : Cmd) (end : ℕ) → Lies code.now c at end → result ≡ between (size c) }
{
    match blank_end(code, at) {
        Some(_) => 0,
        None => 1,
    }
}

// The k-th part of the if at `at`, from 0.
fn part_at(code: &[u8], at: usize, k: usize) -> Option<Part>
    requires { SomeCmd code.now at × (get_or code.now at 0 ≡ 0x23) }
    ensures { (c : Cmd) → Sits code.now c at → PartAs code.now at c k result }
{
    let there = skip_expr(code, at + 1);
    match k {
        0 => Some(Part {
            there,
            deeper: 1,
            rows: 1,
        }),
        1 => {
            let first = span_at(code, there);
            Some(Part {
                there: first.end,
                deeper: 1,
                rows: 1 + first.rows + jump_before(code, first.end),
            })
        }
        _ => None,
    }
}

// The k-th child of the command at `at`, from 0.
pub(crate) fn child_at(code: &[u8], at: usize, k: usize) -> Option<Part>
    requires { SomeCmd code.now at }
    ensures { (c : Cmd) → Sits code.now c at → PartAs code.now at c k result }
{
    match code[at] {
        Spot::SEQUENCE if k < usize::from(code[at + 1]) => {
            let before = span_all(code, at + 2, k);
            Some(Part {
                there: before.end,
                deeper: 0,
                rows: before.rows,
            })
        }
        Spot::IF => part_at(code, at, k),
        Spot::WHILE if k == 0 => Some(Part {
            there: skip_expr(code, at + 1),
            deeper: 1,
            rows: 1,
        }),
        _ => None,
    }
}

// Whether the command at `at` is an assignment, an if or a while.
pub(crate) fn takes_step(code: &[u8], at: usize) -> bool
    requires { SomeCmd code.now at }
    ensures { (c : Cmd) (end : ℕ) → Lies code.now c at end → result ≡ takes_step c }
{
    let byte = code[at];
    byte != Spot::SKIP && byte != Spot::SEQUENCE
}
