// The reader of code: it checks a block's code and compiles it while it does. For `programme`, which has made sure of what a part `requires`.
// Definitions in specs/, laws in proofs/.
// Code, slots and tables stay three parameters: of a struct that borrows them each clause would say `source.entry.code.now`, which is no plainer.
#![tactic(auto)]

ghost use Rattle.std.specs.Prelude.{◌≡◌};
ghost use Rattle.syntax.specs.Code.{ill_formed, too_deep};
ghost use Rattle.reader.specs.CodeReader.{fault_of, ByteAt};

mod code;
mod expression;
mod literals;

pub use code::read_block;
use values::Refusal;

// Where reading stands: the next byte of the block's code, and the next free row and operand.
#[derive(Clone, Copy, Debug, PartialEq, Eq)]
pub struct Spot {
    pub at: usize,
    pub row: usize,
    pub operand: usize,
}

// Why code is refused, and where: of the spot only the byte counts. (A whole spot, so that the refusal stands past it: over one of its words, each spot
// that is read would be passed on in pieces, and checking takes a sixth longer.)
#[derive(Clone, Copy, Debug, PartialEq, Eq)]
pub struct Fault {
    pub spot: Spot,
    pub refusal: Refusal,
}

impl Fault {
    // 9: an unknown byte, a bad count or literal; at the code's end, code that ends early.
    #[tactic(auto, unfolding(values::specs::Refusal::number))]
    fn ill_formed(at: usize) -> Fault
        ensures { fault_of result ≡ ill_formed at }
    {
        Fault {
            spot: Spot {
                at,
                row: 0,
                operand: 0,
            },
            refusal: Refusal::IllFormedCode,
        }
    }

    // 10: nested too deep.
    #[tactic(auto, unfolding(values::specs::Refusal::number))]
    fn too_deep(at: usize) -> Fault
        ensures { fault_of result ≡ too_deep at }
    {
        Fault {
            spot: Spot {
                at,
                row: 0,
                operand: 0,
            },
            refusal: Refusal::NestedTooDeep,
        }
    }
}

// The byte at `at`. Code that ends before it is refused at its end.
fn byte_at(code: &[u8], at: usize) -> Result<u8, Fault>
    ensures { ByteAt code.now at result }
{
    code.get(at).copied().ok_or(Fault::ill_formed(code.len()))
}

// First bytes. (Constants, as the format has them: `reader` and `paths` match on them where they stand.)
impl Spot {
    pub const LITERAL: u8 = 0x10;

    pub const READ: u8 = 0x11;

    pub const SKIP: u8 = 0x20;

    pub const ASSIGN: u8 = 0x21;

    pub const SEQUENCE: u8 = 0x22;

    pub const IF: u8 = 0x23;

    pub const WHILE: u8 = 0x24;
    // The least count of a sequence.
    pub const LEAST_COUNT: u8 = 2;
}
