// An old output as opening values: whether it is good, and the held store that it opens.
ghost use Rattle.std.specs.Prelude.{◌≡◌, ◌<◌, ◌≤◌};
ghost use Rattle.lattice.specs.Tests.{every};
ghost use Rattle.values.specs.Value.{well_formed};
ghost use Rattle.store.specs.Sheet.{most_slots};
ghost use Rattle.store.specs.HeldStore.{row_of};
ghost use Rattle.pausing.specs.Stretches.{slot_in, output_good};
ghost use Rattle.runner.specs.OldOutput.{OpensOutput};

use store::{Held, HeldSlot, Opened};

// Whether every value is well-formed.
fn values_good(out: &[u8], slots: usize) -> bool
    requires { slots ≤ most_slots }
    ensures { result ≡ every slots (λ i. well_formed slots (slot_in out.now i).value) }
{
    (0..slots).all(|i| store::well_formed(store::value_at(out, Opened::SLOT_WIDTH * i), slots))
}

// Whether every value is well-formed, and the counts add up to no more than the steps.
pub(crate) fn output_good(out: &[u8], slots: usize, steps: u32) -> bool
    requires { slots ≤ most_slots }
    ensures { result ≡ output_good slots out.now steps }
{
    values_good(out, slots) && store::counts_total(out, slots as u16) <= u64::from(steps)
}

// Slot i as it is held, with this owner.
fn row_in(out: &[u8], i: usize, owner: u64) -> HeldSlot
    requires { i < most_slots }
    ensures { result ≡ row_of (slot_in out.now i) owner }
{
    let value = store::value_at(out, Opened::SLOT_WIDTH * i);
    HeldSlot::of(value, owner, store::count_at(out, i as u16))
}

// Puts the values and the counts of an output into its slots as they are held, which keep their owners.
pub(crate) fn open_output(out: &[u8], slots: usize, held: &mut Held)
    requires { slots ≤ most_slots }
    ensures { OpensOutput slots out.now held.old held.new }
{
    for (i, row) in held[..slots].iter_mut().enumerate() {
        *row = row_in(out, i, row.owner);
    }
}
