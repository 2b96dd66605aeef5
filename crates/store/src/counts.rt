// The counts of an output's slots.
ghost use Rattle.std.specs.Prelude.{◌≡◌};
ghost use Rattle.values.specs.Bytes.{table};
ghost use Rattle.store.specs.Counts.{total, count_at};

use super::Opened;
use values::{Value, number_at};

// Slot i's; bytes past the output's end are 0. As i has two bytes, no place overflows.
pub fn count_at(out: &[u8], i: u16) -> u64
    ensures { result ≡ count_at out.now i }
{
    let at = Opened::SLOT_WIDTH * usize::from(i) + Value::WIDTH;
    number_at(out, at, Opened::COUNT)
}

// All of them, added up. There are too few for the sum to wrap.
pub fn counts_total(out: &[u8], slots: u16) -> u64
    ensures { result ≡ total (table slots (count_at out.now)) }
{
    (0..slots).map(|i| count_at(out, i)).sum()
}
