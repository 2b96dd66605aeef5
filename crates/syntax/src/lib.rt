// The programme sheet and its code: what they say, and what they are compiled into. Definitions in specs/, laws in proofs/.
#![tactic(auto)]

ghost use Rattle.std.specs.Prelude.{◌≡◌, replicate};
ghost use Rattle.syntax.specs.Rows.{most_rows, most_operands, end_row, no_operand, Roomy};

use values::Value;

// What a block's entries in the sheet's arrays say, besides its length.
#[derive(Clone, Copy)]
pub struct Header {
    pub region: usize,
    pub endorsed: bool,
    // 0 where the block is not endorsed. (No Option: `header_of` in specs/Sheet.antt gives this 0, and the laws of ignored floors speak of it.)
    pub floor: u8,
}

impl Header {
    // Added to the region's principal where the block is endorsed.
    pub const ENDORSED: u8 = 0x80;
}

// The sizes at a programme sheet's start.
#[derive(Drop)]
pub struct Sizes {
    pub blocks: usize,
    pub code: usize,
}

impl Sizes {
    // The bytes of the sizes.
    pub const WIDTH: usize = 3;
    // The bytes of a block's entries in the arrays before the floors: its region and its length.
    pub const FLOORS: usize = 3;
    // The bytes of all its entries.
    pub const ENTRIES: usize = Sizes::FLOORS + 1;

    pub const MOST_BLOCKS: usize = 64;

    pub const MOST_CODE: usize = 16384;
}

// An instruction row. Of a command: how many if-parts and bodies stand around it, the offset of its first byte in its block, and its places.
#[derive(Clone, Copy, Debug, PartialEq, Eq)]
pub enum Row {
    // A block's end.
    End,
    // An assignment, with the first operands of its target and its value.
    Assign {
        depth: u16,
        offset: u16,
        target: u16,
        value: u16,
    },
    // A guard, with its first operand and the row to go on at where it is false; where it is true that is the next row.
    Guard {
        depth: u16,
        offset: u16,
        operand: u16,
        other: u16,
    },
    // From a then-part's end past the else-part, if that has rows; from a body's end back to its guard.
    Jump {
        target: u16,
    },
}

impl Row {
    // The most rows: two for each guard's bytes, and an end row for each block.
    pub const MOST: usize = 2 * Sizes::MOST_CODE / (2 + Value::WIDTH) + Sizes::MOST_BLOCKS;
    // How deep commands may nest, the block's own command being depth 1.
    pub const MOST_DEEP: usize = 32;
    // The depths: of rows, and of what stands inside the deepest guard.
    pub const DEPTHS: usize = Row::MOST_DEEP + 1;
}

// An operand of an expression in postfix: a literal with its kind and payload, or an operation, with its first byte as kind and no payload; and
// the reads around it, with `MORE` added where more operands of its expression come.
#[derive(Clone, Copy, Debug, PartialEq, Eq)]
pub struct Operand {
    pub kind: u8,
    pub reads: u8,
    pub payload: u64,
}

impl Operand {
    // Added to the reads of every operand of an expression but the last.
    pub const MORE: u8 = 0x80;
    // An operation's kind is its first byte.
    pub const SUM: u8 = 0x12;

    pub const DIFFERENCE: u8 = 0x13;

    pub const LESS_THAN: u8 = 0x14;

    pub const EQUAL: u8 = 0x15;
    // The most operands: two for the bytes of an operation and a literal.
    pub const MOST: usize = 2 * Sizes::MOST_CODE / (2 + Value::WIDTH);
    // How deep reads and operations may nest in an expression.
    pub const MOST_NESTED: usize = 8;
    // So many values wait at most.
    pub const DEEPEST: usize = Operand::MOST_NESTED;
    // Stands where no operand was put.
    pub const NONE: Operand = Operand {
        kind: 0,
        reads: 0,
        payload: 0,
    };
}

// The tables that a programme is compiled into: instruction rows, and the operands of their expressions.
#[derive(Clone, Copy)]
pub struct Compiled {
    pub rows: [Row; Row::MOST],
    pub operands: [Operand; Operand::MOST],
}

impl Compiled {
    // The tables before anything is put into them. (In a function, so that they are filled where they stay.)
    pub fn blank() -> Compiled
        ensures rows { result.rows ≡ replicate most_rows end_row }
        ensures operands { result.operands ≡ replicate most_operands no_operand }
        ensures room { Roomy result }
    {
        Compiled {
            rows: [Row::End; Row::MOST],
            operands: [Operand::NONE; Operand::MOST],
        }
    }
}

// What rows are run with: a branch label for each depth, as its principal's mask.
pub type Labels = [u32; Row::DEPTHS];
