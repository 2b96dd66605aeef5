// Bytes, numbers and values in them, integers, and what a call answers. Definitions in specs/, laws in proofs/.
#![tactic(auto)]

mod integers;
mod kinds;
mod number;
mod refusal;

pub use integers::{difference, less_than, sum};
pub use kinds::{is_write_view, value_at, viewed, well_formed};
pub use number::{byte_at, number_at};
pub use refusal::{Refusal, Refused, number_of};

// What a call answers: 0 or the number of a refusal, and its place. C reads it (include/muntyzhap.h), so the number stays one; in Rattle a refusal is a `Refusal`.
#[repr(C)]
#[derive(Clone, Copy)]
pub struct Answer {
    pub number: u32,
    pub block: usize,
    pub offset: usize,
    pub steps: u32,
}

impl Answer {
    // The number of a run that finished, and of a check that refuses nothing.
    pub const FINISHED: u32 = 0;
}

// A kind, and what it holds. C reads it in an `Entry`, and a sheet may give any byte as a kind, so the kind stays a number.
#[repr(C)]
#[derive(Clone, Copy)]
pub struct Value {
    pub kind: u8,
    pub payload: u64,
}

impl Value {
    pub const INTEGER: u8 = 0;

    pub const TRUTH: u8 = 1;

    pub const READ_VIEW: u8 = 2;

    pub const WRITE_VIEW: u8 = 3;
    // The kinds are the numbers below this one.
    pub const KINDS: u8 = 4;
    // The payload of a truth value that is true.
    pub const TRUE: u64 = 1;
    // The bytes of a payload.
    pub const PAYLOAD: usize = 8;
    // The bytes of a value.
    pub const WIDTH: usize = 1 + Value::PAYLOAD;
    // The least payload of a negative integer, and the largest payload.
    pub const SIGN: u64 = 1 << (8 * Value::PAYLOAD - 1);

    pub const LARGEST: u64 = Value::SIGN - 1 + Value::SIGN;
}

// An entry of the journal: which block wrote which slot, at which offset, what the slot held before and what it held then. C reads it (include/muntyzhap.h).
#[repr(C)]
#[derive(Clone, Copy)]
pub struct Entry {
    pub block: usize,
    pub offset: usize,
    pub slot: usize,
    pub old: Value,
    pub new: Value,
}
