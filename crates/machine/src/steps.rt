// Guards and assignments: what the rule set judges of them.
ghost use Rattle.std.specs.Prelude.{◌≡◌, ◌<◌};
ghost use Rattle.store.specs.Sheet.{most_slots};
ghost use Rattle.machine.specs.Answers.{judging, making};
ghost use Rattle.machine.specs.MachineContracts.{grounds_of, CanJudge, SomeExpr, JudgesGuard, MeetsJudged, Relies, Permits, JudgesAssignment};

use super::expressions::Labelled;
use super::rules::Terms;
use super::slots;
use super::slots::Grounds;
use store::Value;
use values::Refusal;

// Who uses a value. `FOR` gives each an instance of `eval`, `aim`, `permit` and `assign` to itself, which is called in one place and so put in line.
// Shared by both passes, an assignment takes twice as long; shared by guards and values, a guard three times. (Numbers, as a const parameter is an integer or a bool.)
#[derive(Drop)]
pub struct Use {}

impl Use {
    pub const FIRST_PASS: u8 = 1;

    pub const SECOND_PASS: u8 = 2;

    pub const GUARD: u8 = 3;
}

// Whether a guard passes, with its label.
#[derive(Clone, Copy)]
pub struct Judged {
    pub passes: bool,
    pub label: u32,
}

// What an assignment writes, with the slot's owner.
#[derive(Clone, Copy)]
pub struct Write {
    pub slot: u64,
    pub kind: u64,
    pub payload: u64,
    pub owner: u64,
}

// The meet of the labels that are judged where any are: target and value, under rule 3 the branch too.
fn meet_judged(branches: bool, target: u32, value: u32, branch: u32) -> u32
    ensures { MeetsJudged branches target value branch result }
{
    let both = target & value;
    if branches { both & branch } else { both }
}

// Whether the labels that the rule set judges stand at or above the owner, or where the block is endorsed at or above its floor (16).
fn reliable(terms: &Terms, owner: u64, target: u32, value: u32, branch: u32) -> bool
    ensures { Relies terms.now owner target value branch result }
{
    let judged = meet_judged(terms.judges.branches, target, value, branch);
    !terms.judges.labels
        || lattice::has_bit(judged, owner as usize)
        || lattice::has_bit(judged, usize::from(terms.floor))
}

impl Grounds<'_> {
    // Judges the guard at operand o: the expression, then its kind.
    pub(crate) fn judge(self, o: usize) -> Result<Judged, Refusal>
        requires { CanJudge (grounds_of self) × SomeExpr self.tables.now.operands o }
        ensures { JudgesGuard (grounds_of self.entry) self.entry.tables.now.operands o (judging result) }
    {
        let x = self.eval::<{ Use::GUARD }>(o)?;
        if x.kind != u64::from(Value::TRUTH) {
            return Err(Refusal::WrongKind);
        }
        Ok(Judged {
            passes: x.payload == Value::TRUE,
            label: x.label,
        })
    }

    // Judges an assignment of a value to the slot that a target names: the region (14), then the labels (16).
    fn permit<const FOR: u8>(
        self,
        target: Labelled,
        value: Labelled,
        branch: u32,
    ) -> Result<Write, Refusal>
        requires { CanJudge (grounds_of self) × (target.payload < most_slots) }
        ensures { Permits (grounds_of self.entry) target.payload target.label value.kind value.payload value.label branch (making result) }
    {
        let slot = store::viewed(target.payload);
        let owner = slots::row_of(self.held, slot).owner;
        if self.terms.judges.regions && !lattice::has_bit(self.terms.region, owner as usize) {
            return Err(Refusal::NoAuthority);
        }
        if !reliable(self.terms, owner, target.label, value.label, branch) {
            return Err(Refusal::ProvenanceTooLow);
        }
        Ok(Write {
            slot,
            kind: value.kind,
            payload: value.payload,
            owner,
        })
    }

    // Judges an assignment by its operands: the target and its kind, the value, then 14 and 16.
    pub fn assign<const FOR: u8>(
        self,
        target: usize,
        value: usize,
        branch: u32,
    ) -> Result<Write, Refusal>
        requires { CanJudge (grounds_of self) × SomeExpr self.tables.now.operands target × SomeExpr self.tables.now.operands value }
        ensures { JudgesAssignment (grounds_of self.entry) self.entry.tables.now.operands target value branch (making result) }
    {
        let x = self.aim::<FOR>(target)?;
        let y = self.eval::<FOR>(value)?;
        self.permit::<FOR>(x, y, branch)
    }
}
