// The store sheet and the table sheet: the checks, and the order table.
ghost use Rattle.std.specs.Prelude.{◌≡◌, ◌<◌, ◌≤◌, MatchResult};
ghost use Rattle.values.specs.Result.{ok, refuse, in_turn, refusal_of};
ghost use Rattle.values.specs.Refusal.{number, said};
ghost use Rattle.store.specs.Sheet.{owner_at, slot_value_at, mask_at, order_of, value_good, slot_checked, body_checked, sheet_checked, store_sheet, table_sheet};
ghost use Rattle.store.specs.HeldStore.{Sized};

use super::Opened;
use lattice::Table;
use values::{Refusal, Value, byte_at, number_at, value_at, well_formed};

// Which sheet it is, for one code serves both: whether values stand after the owners.
#[derive(Clone, Copy, Debug, PartialEq, Eq)]
pub(crate) enum Form {
    Store,
    Table,
}

// A sheet whose sizes are read, and within their limits.
#[derive(Clone, Copy)]
pub(crate) struct Sheet<'a> {
    pub(crate) bytes: &'a [u8],
    form: Form,
    principals: usize,
    pub(crate) slots: usize,
    ghost sized: { Sized bytes.now principals slots },
}

impl<'a> Sheet<'a> {
    // The owner of slot i.
    pub(crate) fn owner(&self, i: usize) -> u64
        requires { i < self.now.slots }
        ensures { result ≡ owner_at self.now.bytes.now i }
    {
        byte_at(
            self.bytes,
            Opened::SIZES + Opened::MASK * self.principals,
            i,
        )
    }

    // The value of slot i, where the sheet has values.
    pub(crate) fn value(&self, i: usize) -> Value
        requires { i < self.now.slots }
        ensures { result ≡ slot_value_at self.now.bytes.now i }
    {
        let owners = Opened::SIZES + Opened::MASK * self.principals;
        value_at(self.bytes, owners + self.slots + Value::WIDTH * i)
    }

    // The sheet's order table.
    pub(crate) fn order(&self) -> Table
        ensures { result ≡ order_of self.now.bytes.now }
    {
        let mut masks = [0u32; Table::MOST];
        for i in 0..self.principals {
            masks[i] = mask_at(self.bytes, i as u8);
        }
        Table {
            n: self.principals,
            masks,
        }
    }

    // Whether slot i's value, where the sheet has values, is well-formed.
    #[tactic(auto, unfolding(crate::specs::Sheet::value_good))]
    fn value_good(&self, i: usize) -> bool
        requires { i < self.now.slots }
        ensures { result ≡ value_good self.now.form self.now.bytes.now i }
    {
        match self.form {
            Form::Store => well_formed(self.value(i), self.slots),
            Form::Table => true,
        }
    }

    // What is wrong with slot i: its owner first (4), then its value (5).
    fn slot_checked(&self, i: usize) -> Result<(), Refusal>
        requires { i < self.now.slots }
        ensures { said result ≡ slot_checked self.now.form self.now.bytes.now i }
    {
        if self.principals as u64 <= self.owner(i) {
            return Err(Refusal::Owner);
        }
        if !self.value_good(i) {
            return Err(Refusal::Value);
        }
        Ok(())
    }

    // The first slot's refusal.
    fn slots_checked(&self) -> Result<(), Refusal>
        ensures { said result ≡ in_turn self.now.slots (slot_checked self.now.form self.now.bytes.now) }
    {
        for i in 0..self.slots {
            self.slot_checked(i)?;
        }
        Ok(())
    }

    // Checks what follows the sizes: the length (1), the order table (3), the slots (4, 5).
    fn body_checked(&self) -> Result<(), Refusal>
        ensures { said result ≡ body_checked self.now.form self.now.bytes.now }
    {
        let each = match self.form {
            Form::Store => Value::WIDTH,
            Form::Table => 0,
        };
        let masks = Opened::MASK * self.principals;
        if self.bytes.len() != Opened::SIZES + masks + self.slots + each * self.slots {
            return Err(Refusal::StoreLength);
        }
        if !lattice::table_good(self.order()) {
            return Err(Refusal::OrderTable);
        }
        self.slots_checked()
    }
}

// Mask i of a sheet; bytes past its end are 0. As i has one byte, no place overflows. (Of a slice that is an argument the proof knows that its entries are bytes; of one in a struct it does not.)
pub fn mask_at(s: &[u8], i: u8) -> u32
    ensures { result ≡ mask_at s.now i }
{
    let at = Opened::SIZES + Opened::MASK * usize::from(i);
    number_at(s, at, Opened::MASK) as u32
}

// A sheet that passes its checks: the sizes are there (1) and within their limits (2), and so is what follows.
pub(crate) fn sheet_checked<'a>(bytes: &'a [u8], form: Form) -> Result<Sheet<'a>, Refusal>
    ensures { MatchResult result (λ sheet. (sheet.bytes.now ≡ bytes.now) × (sheet_checked form bytes.now ≡ ok tt))
        (λ e. sheet_checked form bytes.now ≡ refuse (number e)) }
{
    if bytes.len() < Opened::SIZES {
        return Err(Refusal::StoreLength);
    }
    let principals = number_at(bytes, 0, 1) as usize;
    let slots = number_at(bytes, 1, 2) as usize;
    if principals < 1 || Table::MOST < principals || Opened::MOST_SLOTS < slots {
        return Err(Refusal::StoreLimits);
    }
    let sheet = Sheet {
        bytes,
        form,
        principals,
        slots,
    };
    sheet.body_checked()?;
    Ok(sheet)
}

// The refusal of a store sheet, 1 to 5.
pub fn check_store(sheet: &[u8]) -> Result<(), Refusal>
    ensures { refusal_of (said result) ≡ refusal_of (store_sheet sheet.now) }
{
    sheet_checked(sheet, Form::Store)?;
    Ok(())
}

// The refusal of a table sheet, 1 to 4.
pub fn check_table(sheet: &[u8]) -> Result<(), Refusal>
    ensures { refusal_of (said result) ≡ refusal_of (table_sheet sheet.now) }
{
    sheet_checked(sheet, Form::Table)?;
    Ok(())
}
