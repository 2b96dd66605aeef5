// The code of a block: read, and compiled while it is read.
ghost use Rattle.std.specs.Prelude.{◌≡◌, ◌+◌, ◌<◌, length};
ghost use Rattle.syntax.specs.Code.{read_cmd, read_seq, read_if, read_while, most_deep};
ghost use Rattle.syntax.specs.Rows.{guard_row};
ghost use Rattle.reader.specs.CodeReader.{spot_at, CanRead, Short, CommandAt, BodyReads, CmdReads, GuardedReads, BlockReads};

use super::{Fault, Spot, byte_at, expression};
use syntax::{Compiled, Row};

// The commands.
#[derive(Clone, Copy, Debug, PartialEq, Eq)]
enum Command {
    Skip,
    Assign,
    Sequence,
    If,
    While,
}

// The command at `at`, by its first byte.
#[tactic(auto, using(crate::proofs::CodeReaderCommands::command_cases), unfolding(syntax::specs::Code::sorted))]
fn command_at(code: &[u8], at: usize) -> Result<Command, Fault>
    ensures { CommandAt code.now at result }
{
    match byte_at(code, at)? {
        Spot::SKIP => Ok(Command::Skip),
        Spot::ASSIGN => Ok(Command::Assign),
        Spot::SEQUENCE => Ok(Command::Sequence),
        Spot::IF => Ok(Command::If),
        Spot::WHILE => Ok(Command::While),
        _ => Err(Fault::ill_formed(at)),
    }
}

// Reads the command at a spot, inside `depth` if-parts and bodies, where `deep` levels of commands are still allowed. An unknown byte is
// refused at any depth; only then is the depth judged.
#[cycle(commands)]
fn read_cmd(
    code: &[u8],
    slots: usize,
    tables: &mut Compiled,
    deep: usize,
    depth: usize,
    from: Spot,
) -> Result<Spot, Fault>
    requires { CanRead code.now from (depth + deep) }
    ensures { CmdReads deep depth slots code.now from tables.old tables.new result }
{
    let command = command_at(code, from.at)?;
    if deep == 0 {
        return Err(Fault::too_deep(from.at));
    }
    match command {
        Command::Skip => Ok(Spot {
            at: from.at + 1,
            ..from
        }),
        Command::Assign => expression::read_assign(code, slots, tables, depth, from),
        Command::Sequence => read_seq(code, slots, tables, deep - 1, depth, from),
        Command::If => read_if(code, slots, tables, deep - 1, depth, from),
        Command::While => read_while(code, slots, tables, deep - 1, depth, from),
    }
}

// A count, then that many commands.
#[cycle(commands)]
fn read_seq(
    code: &[u8],
    slots: usize,
    tables: &mut Compiled,
    deep: usize,
    depth: usize,
    from: Spot,
) -> Result<Spot, Fault>
    requires { CanRead code.now from (depth + deep + 1) × (from.at < length code.now) }
    ensures { BodyReads depth code.now (read_seq (read_cmd deep slots code.now) code.now from.at) from tables.old tables.new result }
{
    let place = from.at + 1;
    let count = byte_at(code, place)?;
    if count < Spot::LEAST_COUNT {
        return Err(Fault::ill_formed(place));
    }
    let mut here = Spot {
        at: from.at + 2,
        ..from
    };
    for i in 0..count {
        here = read_cmd(code, slots, tables, deep, depth, here)?;
    }
    Ok(here)
}

// The row of a guard whose command stands at a spot, with the row to go on at where it is false.
fn guard_row(depth: usize, from: Spot, other: usize) -> Row
    requires { Short depth × Short from.at × Short from.operand × Short other }
    ensures { result ≡ guard_row depth from.at from.operand other }
{
    Row::Guard {
        depth: depth as u16,
        offset: from.at as u16,
        operand: from.operand as u16,
        other: other as u16,
    }
}

// Guard, then-part, else-part. Between the parts a row is left for a jump. An else-part with no rows needs none: the if then ends at that row.
#[cycle(commands)]
fn read_if(
    code: &[u8],
    slots: usize,
    tables: &mut Compiled,
    deep: usize,
    depth: usize,
    from: Spot,
) -> Result<Spot, Fault>
    requires { CanRead code.now from (depth + deep + 1) × (from.at < length code.now) }
    ensures { BodyReads depth code.now (read_if (read_cmd deep slots code.now) slots code.now from.at) from tables.old tables.new result }
{
    let jump = read_guarded(code, slots, tables, deep, depth, from)?;
    let other = Spot {
        row: jump.row + 1,
        ..jump
    };
    let end = read_cmd(code, slots, tables, deep, depth + 1, other)?;
    if end.row == other.row {
        tables.rows[from.row] = guard_row(depth, from, jump.row);
        return Ok(Spot {
            row: jump.row,
            ..end
        });
    }
    tables.rows[from.row] = guard_row(depth, from, other.row);
    tables.rows[jump.row] = Row::Jump {
        target: end.row as u16,
    };
    Ok(end)
}

// Guard, then body.
#[cycle(commands)]
fn read_while(
    code: &[u8],
    slots: usize,
    tables: &mut Compiled,
    deep: usize,
    depth: usize,
    from: Spot,
) -> Result<Spot, Fault>
    requires { CanRead code.now from (depth + deep + 1) × (from.at < length code.now) }
    ensures { BodyReads depth code.now (read_while (read_cmd deep slots code.now) slots code.now from.at) from tables.old tables.new result }
{
    let jump = read_guarded(code, slots, tables, deep, depth, from)?;
    let end = Spot {
        row: jump.row + 1,
        ..jump
    };
    tables.rows[from.row] = guard_row(depth, from, end.row);
    tables.rows[jump.row] = Row::Jump {
        target: from.row as u16,
    };
    Ok(end)
}

// A guard, and the first command inside it; the guard's own row is taken, and not set.
#[cycle(commands)]
fn read_guarded(
    code: &[u8],
    slots: usize,
    tables: &mut Compiled,
    deep: usize,
    depth: usize,
    from: Spot,
) -> Result<Spot, Fault>
    requires { CanRead code.now from (depth + deep + 1) × (from.at < length code.now) }
    ensures { GuardedReads deep depth slots code.now from tables.old tables.new result }
{
    let guard = Spot {
        at: from.at + 1,
        ..from
    };
    let inside = expression::read_expr(code, slots, tables, guard)?;
    let part = Spot {
        row: inside.row + 1,
        ..inside
    };
    read_cmd(code, slots, tables, deep, depth + 1, part)
}

// Reads a block from its first byte: exactly one command, closed by an end row.
pub fn read_block(
    code: &[u8],
    slots: usize,
    tables: &mut Compiled,
    row: usize,
    operand: usize,
) -> Result<Spot, Fault>
    requires { CanRead code.now (spot_at 0 row operand) most_deep }
    ensures { BlockReads slots code.now row operand tables.old tables.new result }
{
    let from = Spot {
        at: 0,
        row,
        operand,
    };
    let end = read_cmd(code, slots, tables, Row::MOST_DEEP, 0, from)?;
    if end.at != code.len() {
        return Err(Fault::ill_formed(end.at));
    }
    tables.rows[end.row] = Row::End;
    Ok(Spot {
        row: end.row + 1,
        ..end
    })
}
