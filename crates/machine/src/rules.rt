// The rule sets, and what a block runs under.
ghost use Rattle.std.specs.Prelude.{◌≡◌, ◌<◌};
ghost use Rattle.lattice.specs.Order.{most_principals};
ghost use Rattle.calculus.specs.Rules.{rules_of};
ghost use Rattle.machine.specs.MachineNumbers.{floor_held};
ghost use Rattle.machine.specs.BlockRuns.{judges_of, Served};

use lattice::Table;
use syntax::Header;

// What a rule set judges.
#[derive(Clone, Copy)]
pub struct Judges {
    // Write views, wherever they turn up (rule 1).
    pub views: bool,
    // The region, at each assignment (rules 0, 2 and 3).
    pub regions: bool,
    // The labels of target and value (rules 2 and 3).
    pub labels: bool,
    // The branch's label too (rule 3).
    pub branches: bool,
}

// What a block runs under: what its rule set judges, its endorsement, its region's and the top's masks.
#[derive(Clone, Copy)]
pub struct Terms {
    pub judges: Judges,
    // The floor of an endorsed block; of any other a number that is no principal's.
    pub floor: u8,
    pub region: u32,
    pub top: u32,
}

impl Terms {
    // Stands at or below no label. (No Option: an endorsement held beside the floor made nested ifs an eighth slower.)
    pub const NO_FLOOR: u8 = Table::MOST as u8;
}

// The numbers of the rule sets are the callers': C gives one (include/muntyzhap.h), and document 01 asks for associated constants.
impl Judges {
    pub const ACCESS_CONTROL: u32 = 0;

    pub const CAPABILITY: u32 = 1;

    pub const EXPLICIT_PROVENANCE: u32 = 2;

    pub const FULL_PROVENANCE: u32 = 3;
    // Stands for a rule set by default: full provenance.
    pub const DEFAULT: u32 = 255;

    pub const MOST_BUDGET: u32 = 1_000_000;
}

// What the rule set of a rule number judges, where there is one.
#[tactic(auto, unfolding(crate::specs::BlockRuns::judges_of, crate::specs::MachineNumbers::judging_of, crate::specs::MachineNumbers::judges_labels, crate::specs::MachineNumbers::judges_branch, calculus::specs::Rules::rules_of, calculus::specs::Rules::judges_views, calculus::specs::Rules::judges_region))]
pub fn judges_of(rule: u32) -> Option<Judges>
    ensures { result ≡ judges_of (rules_of rule) }
{
    match rule {
        Judges::ACCESS_CONTROL => Some(Judges {
            views: false,
            regions: true,
            labels: false,
            branches: false,
        }),
        Judges::CAPABILITY => Some(Judges {
            views: true,
            regions: false,
            labels: false,
            branches: false,
        }),
        Judges::EXPLICIT_PROVENANCE => Some(Judges {
            views: false,
            regions: true,
            labels: true,
            branches: false,
        }),
        Judges::FULL_PROVENANCE | Judges::DEFAULT => Some(Judges {
            views: false,
            regions: true,
            labels: true,
            branches: true,
        }),
        _ => None,
    }
}

// A floor as it is held.
#[tactic(auto, unfolding(crate::specs::MachineNumbers::floor_held))]
fn floor_of(endorsed: bool, floor: u8) -> u8
    ensures { result ≡ floor_held endorsed floor }
{
    if endorsed { floor } else { Terms::NO_FLOOR }
}

// What a block runs under.
pub(crate) fn terms_of(table: &Table, judges: Judges, header: Header) -> Terms
    requires { header.region < most_principals }
    ensures { Served table.now judges header result }
{
    Terms {
        judges,
        floor: floor_of(header.endorsed, header.floor),
        region: table.masks[header.region],
        top: lattice::top_mask(table.n),
    }
}
