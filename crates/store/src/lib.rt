// The store sheet, the table sheet, and the store as the code holds it. Definitions in specs/, laws in proofs/.
#![tactic(auto)]

ghost use Rattle.std.specs.Prelude.{◌≡◌};
ghost use Rattle.store.specs.HeldStore.{row_of};

use lattice::Table;

mod counts;
mod held;
mod sheets;

pub use counts::{count_at, counts_total};
pub use held::{open_store, write_store};
pub use sheets::{check_store, check_table, mask_at};

// Of `values`, for the crates above.
pub use values::{
    Answer, Entry, Refusal, Refused, Value, difference, is_write_view, less_than, number_at,
    number_of, sum, value_at, viewed, well_formed,
};

// What a store sheet opens: its tables.
#[derive(Clone, Copy)]
pub struct Opened {
    pub slots: usize,
    pub table: Table,
}

impl Opened {
    // The most slots that a store may have.
    pub const MOST_SLOTS: usize = 256;
    // The bytes of a slot's count, and of a slot in the output.
    pub const COUNT: usize = 4;

    pub const SLOT_WIDTH: usize = Value::WIDTH + Opened::COUNT;
    // The most bytes that an output may have.
    pub const MOST_OUTPUT: usize = Opened::SLOT_WIDTH * Opened::MOST_SLOTS;
    // The bytes of the sizes at a sheet's start.
    pub const SIZES: usize = 3;
    // The bytes of a mask.
    pub const MASK: usize = 4;
}

// A slot as the code holds it, in numbers as wide as those that the machine's loop reckons with.
#[derive(Clone, Copy, Debug, PartialEq, Eq)]
pub struct HeldSlot {
    pub kind: u64,
    pub payload: u64,
    pub owner: u64,
    pub writes: u64,
}

impl HeldSlot {
    // The integer 0 of principal 0, never written: every slot from m on.
    pub const EMPTY: HeldSlot = HeldSlot {
        kind: 0,
        payload: 0,
        owner: 0,
        writes: 0,
    };

    // A slot of this value and owner, written so often.
    #[tactic(auto, unfolding(crate::specs::HeldStore::row_of))]
    pub fn of(value: Value, owner: u64, writes: u64) -> HeldSlot
        ensures { result ≡ row_of (record { value = value; writes = writes }) owner }
    {
        HeldSlot {
            kind: u64::from(value.kind),
            payload: value.payload,
            owner,
            writes,
        }
    }
}

// A store as the code holds it: one for each slot that there may be.
pub type Held = [HeldSlot; Opened::MOST_SLOTS];
