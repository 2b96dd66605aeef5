// The held store: opened from a store sheet, and written to an output.
ghost use Rattle.std.specs.Prelude.{◌≡◌, ◌<◌, ◌≤◌, ◌+◌, length};
ghost use Rattle.std.proofs.lemmas.List.Edits.{sets};
ghost use Rattle.values.specs.Refusal.{said};
ghost use Rattle.values.specs.Value.{slot_width};
ghost use Rattle.values.specs.Bytes.{number_bytes};
ghost use Rattle.store.specs.Sheet.{store_sheet, tables_of, opening_of};
ghost use Rattle.store.specs.HeldStore.{row_at, held_of, opened_in, held_after, row_bytes, fitting, out_after};

use super::sheets::{Form, Sheet, sheet_checked};
use super::{Held, HeldSlot, Opened};
use values::{Refusal, Value};

impl<'a> Sheet<'a> {
    // Slot i as it is held, with no writes.
    #[tactic(auto, unfolding(crate::specs::HeldStore::row_at, crate::specs::HeldStore::row_of, values::specs::Value::opened))]
    fn held(&self, i: usize) -> HeldSlot
        requires { i < self.now.slots }
        ensures { result ≡ row_at self.now.bytes.now i }
    {
        HeldSlot::of(self.value(i), self.owner(i), 0)
    }
}

// Fills the held store: all empty, and then the sheet's own slots.
fn fill_held(sheet: &Sheet<'_>, held: &mut Held)
    ensures { held.new ≡ held_of (tables_of sheet.now.bytes.now) (opening_of sheet.now.bytes.now).store }
{
    *held = [HeldSlot::EMPTY; Opened::MOST_SLOTS];
    for i in 0..sheet.slots {
        held[i] = sheet.held(i);
    }
}

// Checks a store sheet, and opens it. A refusal leaves the held store as it was.
pub fn open_store(sheet: &[u8], held: &mut Held) -> Result<Opened, Refusal>
    ensures opened { said result ≡ opened_in (store_sheet sheet.now) }
    ensures held { held.new ≡ held_after (store_sheet sheet.now) held.old }
{
    let sheet = sheet_checked(sheet, Form::Store)?;
    fill_held(&sheet, held);
    Ok(Opened {
        slots: sheet.slots,
        table: sheet.order(),
    })
}

impl HeldSlot {
    // Its bytes in the output: kind, payload, and count of writes.
    fn to_bytes(self) -> [u8; Opened::SLOT_WIDTH]
        ensures { result ≡ row_bytes self }
    {
        let mut bytes = [0; Opened::SLOT_WIDTH];
        bytes[0] = (self.kind % 256) as u8;
        bytes[1..Value::WIDTH].copy_from_slice(&self.payload.to_le_bytes());
        bytes[Value::WIDTH..].copy_from_slice(&self.writes.to_le_bytes()[..Opened::COUNT]);
        bytes
    }
}

// Writes the first m slots of a held store: as many as are held and as the output has room for. What stands after them in the output stays.
pub fn write_store(held: &Held, m: usize, out: &mut [u8])
    ensures { out.new ≡ out_after held.now (fitting m (length out.old)) out.old }
{
    let slots = m
        .min(Opened::MOST_SLOTS)
        .min(out.len() / Opened::SLOT_WIDTH);
    for (i, slot) in held[..slots].iter().enumerate() {
        let at = Opened::SLOT_WIDTH * i;
        out[at..at + Opened::SLOT_WIDTH].copy_from_slice(&slot.to_bytes());
    }
}
