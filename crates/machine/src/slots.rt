// The held store: a slot's kind, payload, owner and count of writes.
ghost use Rattle.std.specs.Prelude.{◌≡◌, ◌<◌};
ghost use Rattle.values.specs.Value.{write_view};
ghost use Rattle.store.specs.Sheet.{most_slots};
ghost use Rattle.machine.specs.MachineContracts.{grounds_of, CanJudge, RowRead, Admits, FewWrites, PutsWrite};

use super::rules::Terms;
use super::steps::Write;
use lattice::Masks;
use store::{Held, HeldSlot};
use syntax::Compiled;

// What is judged by: the compiled tables, the held store, the masks of the principals, and what the block runs under.
#[derive(Clone, Copy)]
pub struct Grounds<'a> {
    pub tables: &'a Compiled,
    pub held: &'a Held,
    pub masks: &'a Masks,
    pub terms: &'a Terms,
}

// A slot.
pub fn row_of(held: &Held, slot: u64) -> HeldSlot
    requires { slot < most_slots }
    ensures { RowRead held.now slot result }
{
    held[slot as usize]
}

impl Grounds<'_> {
    // Rule 1: whether the region may hold this value (15).
    pub(crate) fn admitted(self, kind: u64, payload: u64) -> bool
        requires { CanJudge (grounds_of self) × (kind ≡ write_view → payload < most_slots) }
        ensures { Admits (grounds_of self.entry) kind payload result }
    {
        !self.terms.judges.views
            || !store::is_write_view(kind)
            || lattice::has_bit(
                self.terms.region,
                row_of(self.held, store::viewed(payload)).owner as usize,
            )
    }
}

// Puts what an assignment writes into its slot, and counts the write.
pub fn put(held: &mut Held, write: Write)
    requires { (write.slot < most_slots) × FewWrites held.old write.slot }
    ensures { PutsWrite held.old held.new write.slot write.kind write.payload write.owner }
{
    let i = write.slot as usize;
    held[i] = HeldSlot {
        kind: write.kind,
        payload: write.payload,
        owner: write.owner,
        writes: held[i].writes + 1,
    };
}
