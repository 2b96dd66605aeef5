// Literals: read, and put into the tables.
ghost use Rattle.std.specs.Prelude.{◌≡◌, ◌<◌, length};
ghost use Rattle.syntax.specs.Code.{read_value, read_literal};
ghost use Rattle.reader.specs.CodeReader.{value_reading, CanRead, PartReads};

use super::{Fault, Spot, byte_at};
use syntax::{Compiled, Operand};
use values::Value;

// A literal's value. Its kind is judged before the payload's bytes are counted.
#[tactic(auto, using(crate::proofs::CodeReaderValues::value_cases))]
fn read_value(code: &[u8], slots: usize, at: usize) -> Result<Value, Fault>
    ensures { read_value slots code.now at ≡ value_reading at result }
{
    let kind = byte_at(code, at)?;
    if Value::KINDS <= kind {
        return Err(Fault::ill_formed(at));
    }
    if code.len() - at < Value::WIDTH {
        return Err(Fault::ill_formed(code.len()));
    }
    let value = values::value_at(code, at);
    if !values::well_formed(value, slots) {
        return Err(Fault::ill_formed(at));
    }
    Ok(value)
}

// The literal at `from`, inside `reads` reads: the next operand.
pub(crate) fn read_literal(
    code: &[u8],
    slots: usize,
    tables: &mut Compiled,
    from: Spot,
    reads: u8,
) -> Result<Spot, Fault>
    requires { CanRead code.now from 0 × (from.at < length code.now) }
    ensures { PartReads reads code.now (read_literal slots code.now from.at) from tables.old tables.new result }
{
    let value = read_value(code, slots, from.at + 1)?;
    tables.operands[from.operand] = Operand {
        kind: value.kind,
        reads,
        payload: value.payload,
    };
    Ok(Spot {
        at: from.at + 1 + Value::WIDTH,
        operand: from.operand + 1,
        ..from
    })
}
