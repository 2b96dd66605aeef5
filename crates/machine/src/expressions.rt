// Expressions, from their operands.
ghost use Rattle.std.specs.Prelude.{◌≡◌, ◌<◌, Ok, bit_and};
ghost use Rattle.machine.specs.Answers.{Got, got};
ghost use Rattle.calculus.specs.Calculus.{integer_of, truth_of};
ghost use Rattle.machine.specs.CompiledExpressions.{got_value};
ghost use Rattle.machine.specs.MachineContracts.{grounds, grounds_of, CanJudge, SomeExpr, SomeLiteral, SomeOperation, ReadsThrough, Operates, CanFold, Folds, Evaluates, Aims};

use super::rules::Terms;
use super::slots;
use super::slots::Grounds;
use lattice::Masks;
use store::{Held, Value};
use syntax::{Compiled, Operand};
use values::Refusal;

// An expression's value, with its label as a mask. (Kind and payload stand apart: two numbers that lie side by side would be written one by one and read
// as one, which stalls.)
#[derive(Clone, Copy)]
pub struct Labelled {
    pub kind: u64,
    pub label: u32,
    pub payload: u64,
}

impl Labelled {
    // Stands where no value waits.
    const NONE: Labelled = Labelled {
        kind: 0,
        label: 0,
        payload: 0,
    };
}

fn integer(payload: u64, label: u32) -> Labelled
    ensures { got (Ok result) ≡ got_value (integer_of payload) label }
{
    Labelled {
        kind: u64::from(Value::INTEGER),
        payload,
        label,
    }
}

#[tactic(auto, unfolding(calculus::specs::Calculus::truth_of))]
fn truth(holds: bool, label: u32) -> Labelled
    ensures { got (Ok result) ≡ got_value (truth_of holds) label }
{
    Labelled {
        kind: u64::from(Value::TRUTH),
        payload: if holds { Value::TRUE } else { 0 },
        label,
    }
}

// An operation on two values, whose kinds are judged now (13).
fn operate(operation: u8, left: Labelled, right: Labelled) -> Result<Labelled, Refusal>
    ensures { Operates operation left.kind left.payload right.kind right.payload (bit_and left.label right.label) (got result) }
{
    let label = left.label & right.label;
    if operation == Operand::EQUAL {
        return Ok(truth(
            left.kind == right.kind && left.payload == right.payload,
            label,
        ));
    }
    if left.kind != u64::from(Value::INTEGER) {
        return Err(Refusal::WrongKind);
    }
    if right.kind != u64::from(Value::INTEGER) {
        return Err(Refusal::WrongKind);
    }
    match operation {
        Operand::SUM => Ok(integer(store::sum(left.payload, right.payload), label)),
        Operand::DIFFERENCE => Ok(integer(store::difference(left.payload, right.payload), label)),
        _ => Ok(truth(store::less_than(left.payload, right.payload), label)),
    }
}

// An expression with operations, judged by what is passed apart: a struct of four references would be written and read back at each one.
#[inline(never)]
fn eval_apart(
    tables: &Compiled,
    held: &Held,
    masks: &Masks,
    terms: &Terms,
    o: usize,
) -> Result<Labelled, Refusal>
    requires { CanJudge (grounds terms.now masks.now held.now) × SomeOperation tables.now.operands o }
    ensures { Evaluates (grounds terms.now masks.now held.now) tables.now.operands o (got result) }
{
    let judged = Grounds {
        tables,
        held,
        masks,
        terms,
    };
    judged.eval_operations(o)
}

impl Grounds<'_> {
    // The literal at operand o, from it outwards through its reads. What turns up is judged (15) before it is read through (13).
    pub(crate) fn read_through(self, o: usize) -> Result<Labelled, Refusal>
        requires { CanJudge (grounds_of self) × SomeLiteral self.tables.now.operands o }
        ensures { ReadsThrough (grounds_of self.entry) self.entry.tables.now.operands o (got result) }
    {
        let operand = self.tables.operands[o];
        let mut kind = u64::from(operand.kind);
        let mut payload = operand.payload;
        let mut label = self.terms.top;
        let mut left = operand.reads % Operand::MORE;
        // (No `for` over the reads: what turns up is judged once more than it is read through.)
        loop {
            if !self.admitted(kind, payload) {
                return Err(Refusal::WriteViewNotAllowed);
            }
            if left == 0 {
                return Ok(Labelled {
                    kind,
                    payload,
                    label,
                });
            }
            if kind != u64::from(Value::READ_VIEW) {
                return Err(Refusal::WrongKind);
            }
            let row = slots::row_of(self.held, store::viewed(payload));
            kind = row.kind;
            payload = row.payload;
            label = label & self.masks[row.owner as usize];
            left -= 1;
        }
    }

    // The rest of an expression, from operand `from` on, once a first value is known.
    fn fold(self, from: usize, first: Labelled) -> Result<Labelled, Refusal>
        requires { CanFold (grounds_of self) self.tables.now.operands from first.kind first.payload first.label }
        ensures { Folds (grounds_of self.entry) self.entry.tables.now.operands from first.kind first.payload first.label (got result) }
    {
        let mut stack = [Labelled::NONE; Operand::DEEPEST];
        let mut waiting = 0;
        let mut last = first;
        let mut o = from;
        // (No `for`: the operand that ends the expression is told by its own mark. And an array with a count, as there is no heap.)
        loop {
            let operand = self.tables.operands[o];
            if operand.kind < Value::KINDS {
                let x = self.read_through(o)?;
                stack[waiting] = last;
                waiting += 1;
                last = x;
            } else {
                waiting -= 1;
                let x = operate(operand.kind, stack[waiting], last)?;
                match operand.reads {
                    0 => {
                        return Ok(x);
                    }
                    Operand::MORE => {
                        last = x;
                    }
                    // A read of an operation's result: no operation gives a view.
                    _ => {
                        return Err(Refusal::WrongKind);
                    }
                }
            }
            o += 1;
        }
    }

    // An expression with operations, from its first operand on.
    fn eval_operations(self, o: usize) -> Result<Labelled, Refusal>
        requires { CanJudge (grounds_of self) × SomeOperation self.tables.now.operands o }
        ensures { Evaluates (grounds_of self.entry) self.entry.tables.now.operands o (got result) }
    {
        let x = self.read_through(o)?;
        let third = self.tables.operands[o + 2];
        // Neither reads nor MORE: the third operand is the expression's last, so an operation on the two before it.
        if third.reads == 0 {
            let y = self.read_through(o + 1)?;
            return operate(third.kind, x, y);
        }
        self.fold(o + 1, x)
    }

    // A value: an expression, from its first operand on. (An instance for each user, `steps::Use`, is put in line, and `eval_apart` is not.)
    pub(crate) fn eval<const FOR: u8>(self, o: usize) -> Result<Labelled, Refusal>
        requires { CanJudge (grounds_of self) × SomeExpr self.tables.now.operands o }
        ensures { Evaluates (grounds_of self.entry) self.entry.tables.now.operands o (got result) }
    {
        if self.tables.operands[o].reads < Operand::MORE {
            return self.read_through(o);
        }
        eval_apart(self.tables, self.held, self.masks, self.terms, o)
    }

    // An assignment's target: a write view. No operation gives a view.
    pub(crate) fn aim<const FOR: u8>(self, o: usize) -> Result<Labelled, Refusal>
        requires { CanJudge (grounds_of self) × SomeExpr self.tables.now.operands o }
        ensures { Aims (grounds_of self.entry) self.entry.tables.now.operands o (got result) }
    {
        if Operand::MORE <= self.tables.operands[o].reads {
            eval_apart(self.tables, self.held, self.masks, self.terms, o)?;
            return Err(Refusal::WrongKind);
        }
        let x = self.read_through(o)?;
        if !store::is_write_view(x.kind) {
            return Err(Refusal::WrongKind);
        }
        Ok(x)
    }
}
