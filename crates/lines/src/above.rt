// How many principals stand at or above an owner: ones are counted in their mask.
ghost use Rattle.std.specs.Prelude.{◌≡◌, ◌+◌, ◌*◌, ◌^◌, ◌<◌, min};
ghost use Rattle.lattice.specs.Order.{most_principals};
ghost use Rattle.store.specs.Sheet.{n_of, order_of};
ghost use Rattle.lines.specs.PrincipalsAbove.{one_if, mask_above, number_above};

use lattice::Table;

// How many principals the sheet says that there are, in one byte: the cast loses nothing.
pub(crate) fn said_principals(sheet: &[u8]) -> usize
    ensures value { result ≡ n_of sheet.now }
    ensures small { result < 256 }
{
    store::number_at(sheet, 0, 1) as usize
}

// How many have a mask: as many as the sheet says, and no more than there may be.
fn principals_of(sheet: &[u8]) -> usize
    ensures { result ≡ min most_principals (n_of sheet.now) }
{
    said_principals(sheet).min(Table::MOST)
}

// A mask of p bits with one more, bit p.
fn with_bit(m: u32, p: usize, set: bool) -> u32
    requires { (m < 2 ^ p) × (p < most_principals) }
    ensures { result ≡ m + one_if set * 2 ^ p }
{
    m + (u32::from(set) << p)
}

// The mask of the principals that stand at or above the owner.
fn mask_above(sheet: &[u8], owner: usize) -> u32
    ensures { result ≡ mask_above (order_of sheet.now) owner }
{
    let mut above = 0;
    for p in 0..principals_of(sheet) {
        let stands = lattice::has_bit(store::mask_at(sheet, p as u8), owner);
        above = with_bit(above, p, stands);
    }
    above
}

// How many they are.
#[tactic(auto, using(crate::proofs::PrincipalsAbove::ones_above))]
pub(crate) fn number_above(sheet: &[u8], owner: usize) -> u64
    ensures { result ≡ number_above (order_of sheet.now) owner }
{
    u64::from(mask_above(sheet, owner).count_ones())
}
