// Expressions and assignments: read, and put into the tables.
ghost use Rattle.std.specs.Prelude.{◌<◌, ◌≤◌, length};
ghost use Rattle.syntax.specs.Code.{read_expr, most_nested, read_assign};
ghost use Rattle.syntax.specs.Rows.{more_come};
ghost use Rattle.reader.specs.CodeReader.{CanRead, ReadsAt, PartReads, OperationReads, ExprReads, BodyReads};

use super::{Fault, Spot, byte_at, literals};
use syntax::{Compiled, Operand, Row};

// The operands of an operation, which stand from `from` on, left and then right; then its own, inside `reads` reads.
#[cycle(expressions)]
fn read_operation(
    code: &[u8],
    slots: usize,
    tables: &mut Compiled,
    from: Spot,
    deep: usize,
    operation: u8,
    reads: u8,
) -> Result<Spot, Fault>
    requires { CanRead code.now from 0 × (deep ≤ most_nested) }
    ensures { OperationReads deep operation reads slots code.now from tables.old tables.new result }
{
    let middle = read_part(code, slots, tables, from, deep, Operand::MORE)?;
    let end = read_part(code, slots, tables, middle, deep, Operand::MORE)?;
    tables.operands[end.operand] = Operand {
        kind: operation,
        reads,
        payload: 0,
    };
    Ok(Spot {
        operand: end.operand + 1,
        ..end
    })
}

// How many bytes 11 stand in a row from `at` on, up to `most`.
fn reads_at(code: &[u8], at: usize, most: usize) -> usize
    requires { at ≤ length code.now }
    ensures { ReadsAt code.now at most result }
{
    code[at..]
        .iter()
        .take(most)
        .take_while(|b| **b == Spot::READ)
        .count()
}

// An expression inside `outer` reads, where reads and operations may still nest `deep` deep.
#[cycle(expressions)]
fn read_part(
    code: &[u8],
    slots: usize,
    tables: &mut Compiled,
    from: Spot,
    deep: usize,
    outer: u8,
) -> Result<Spot, Fault>
    requires { CanRead code.now from 0 × (deep ≤ most_nested) × (outer ≤ more_come) }
    ensures { PartReads outer code.now (read_expr deep slots code.now from.at) from tables.old tables.new result }
{
    let reads = reads_at(code, from.at, deep);
    let inside = outer + reads as u8;
    let here = Spot {
        at: from.at + reads,
        ..from
    };
    let first = byte_at(code, here.at)?;
    match first {
        Spot::LITERAL => literals::read_literal(code, slots, tables, here, inside),
        Spot::READ..=Operand::EQUAL => {
            if reads == deep {
                return Err(Fault::too_deep(here.at));
            }
            let operands = Spot {
                at: here.at + 1,
                ..here
            };
            read_operation(
                code,
                slots,
                tables,
                operands,
                deep - reads - 1,
                first,
                inside,
            )
        }
        _ => Err(Fault::ill_formed(here.at)),
    }
}

// A whole expression.
pub(crate) fn read_expr(
    code: &[u8],
    slots: usize,
    tables: &mut Compiled,
    from: Spot,
) -> Result<Spot, Fault>
    requires { CanRead code.now from 0 }
    ensures { ExprReads slots code.now from tables.old tables.new result }
{
    read_part(code, slots, tables, from, Operand::MOST_NESTED, 0)
}

// Target, then value; then their row.
pub(crate) fn read_assign(
    code: &[u8],
    slots: usize,
    tables: &mut Compiled,
    depth: usize,
    from: Spot,
) -> Result<Spot, Fault>
    requires { CanRead code.now from depth × (from.at < length code.now) }
    ensures { BodyReads depth code.now (read_assign slots code.now from.at) from tables.old tables.new result }
{
    let target = Spot {
        at: from.at + 1,
        ..from
    };
    let value = read_expr(code, slots, tables, target)?;
    let end = read_expr(code, slots, tables, value)?;
    tables.rows[end.row] = Row::Assign {
        depth: depth as u16,
        offset: from.at as u16,
        target: from.operand as u16,
        value: value.operand as u16,
    };
    Ok(Spot {
        row: end.row + 1,
        ..end
    })
}
