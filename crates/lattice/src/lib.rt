// Order tables. Definitions in specs/, laws in proofs/.
#![tactic(auto)]

ghost use Rattle.std.specs.Prelude.{◌≡◌, ◌<◌, ◌≤◌, ◌^◌, ◌-◌, min};
ghost use Rattle.lattice.specs.Order.{most_principals, bit, good};
ghost use Rattle.lattice.specs.Masks.{has_mask, pair_ok, meet_ok, row_ok, rows_ok, line_ok, table_ok};

// An order table: n principals, numbered from 0, and a mask for each. Masks from n on are 0. The memory is fixed, so the array has room for all.
#[derive(Clone, Copy)]
pub struct Table {
    pub n: usize,
    pub masks: Masks,
}

// A mask for each principal that a table may have.
pub type Masks = [u32; Table::MOST];

// (No invariant bounds n, since `table_good` answers for any; so what needs a bound requires it.)
impl Table {
    // The most principals that a table may have.
    pub const MOST: usize = 32;

    // Some principal has the mask m. (By index: so four masks are compared at a time; by `contains` 16 are, and by `any` one.)
    fn has_mask(&self, m: u32) -> bool
        requires { self.now.n ≤ most_principals }
        ensures { result ≡ has_mask self.now.masks self.now.n m }
    {
        for k in 0..self.n {
            if self.masks[k] == m {
                return true;
            }
        }
        false
    }

    // The test of one pair, with its meet: the principal whose mask is the conjunction of theirs.
    #[tactic(auto, using(crate::proofs::Tests::branches), unfolding(crate::specs::Masks::meet_ok))]
    fn meet_ok(&self, i: usize, j: usize) -> bool
        requires { (self.now.n ≤ most_principals) × (i < self.now.n) × (j < self.now.n) }
        ensures { result ≡ meet_ok self.now.masks self.now.n i j }
    {
        let mi = self.masks[i];
        let mj = self.masks[j];
        pair_ok(mi, mj, i, j) && self.has_mask(mi & mj)
    }

    // Principal i with each principal.
    fn row_ok(&self, i: usize) -> bool
        requires { (self.now.n ≤ most_principals) × (i < self.now.n) }
        ensures { result ≡ row_ok self.now.masks self.now.n i }
    {
        (0..self.n).all(|j| self.meet_ok(i, j))
    }

    // Principal i's own line: no bit n or higher, itself, and its row.
    #[tactic(auto, using(crate::proofs::Masks::line_steps), unfolding(crate::specs::Masks::line_ok))]
    fn line_ok(&self, i: usize) -> bool
        requires { (self.now.n ≤ most_principals) × (i < self.now.n) }
        ensures { result ≡ line_ok self.now.masks self.now.n i }
    {
        let m = self.masks[i];
        m <= ones(self.n) && has_bit(m, i) && self.row_ok(i)
    }

    // Each principal's line.
    fn rows_ok(&self) -> bool
        requires { self.now.n ≤ most_principals }
        ensures { result ≡ rows_ok self.now.masks self.now.n }
    {
        (0..self.n).all(|i| self.line_ok(i))
    }

    // All of them, and the top: some principal has all n bits.
    #[tactic(auto, using(crate::proofs::Tests::branches), unfolding(crate::specs::Masks::table_ok))]
    fn masks_ok(&self) -> bool
        requires { self.now.n ≤ most_principals }
        ensures { result ≡ table_ok self.now.masks self.now.n }
    {
        self.rows_ok() && self.has_mask(ones(self.n))
    }
}

// Bit j of m: whether principal j stands at or below whatever has the mask m. A mask has no bit past the last principal's.
#[tactic(auto, using(crate::proofs::OrderBits::mask_past), unfolding(crate::specs::Order::bit))]
pub fn has_bit(m: u32, j: usize) -> bool
    ensures { result ≡ bit m j }
{
    j < Table::MOST && (m >> j) % 2 == 1
}

// Where j stands below i: all below j stands below i, and i does not stand below j, unless it is j.
#[tactic(auto, using(crate::proofs::Tests::branches), unfolding(crate::specs::Masks::pair_ok))]
fn pair_ok(mi: u32, mj: u32, i: usize, j: usize) -> bool
    ensures { result ≡ pair_ok mi mj i j }
{
    !has_bit(mi, j) || (mi & mj == mj && (i == j || !has_bit(mj, i)))
}

// The n low bits. They are shifted in 64 bits, since all 32 may be set.
#[tactic(auto, using(crate::proofs::OrderBits::shifts))]
fn ones(n: usize) -> u32
    requires { n ≤ most_principals }
    ensures { result ≡ 2 ^ n - 1 }
{
    ((1u64 << n) - 1) as u32
}

// Whether the order table is good. One of more principals than it may have is not: it has no mask for them.
#[tactic(auto, using(crate::proofs::Masks::table_ok_law, crate::proofs::Masks::too_many))]
pub fn table_good(t: Table) -> bool
    ensures { result ≡ good t }
{
    t.n <= Table::MOST && t.masks_ok()
}

// The mask of the top of a good table of n principals: their bits.
pub fn top_mask(n: usize) -> u32
    ensures { result ≡ 2 ^ min most_principals n - 1 }
{
    ones(n.min(Table::MOST))
}
