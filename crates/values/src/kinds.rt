// Values: reading one, and what a value may be.
ghost use Rattle.std.specs.Prelude.{◌≡◌, ℕ, ◌+◌, ◌<◌, length};
ghost use Rattle.values.specs.Value.{value_width, is_write_view, viewed, value_at, well_formed};

use super::Value;
use super::number::number_in;

// The value at `at`, whose bytes run past the end: only those that are there are read.
fn cut_value_at(s: &[u8], at: usize) -> Value
    requires { length s.now < at + value_width }
    ensures { result ≡ value_at s.now at }
{
    match s.get(at) {
        Some(kind) => Value {
            kind: *kind,
            payload: number_in(&s[at + 1..]),
        },
        None => Value {
            kind: 0,
            payload: 0,
        },
    }
}

// The value at `at`, the bytes past the end being 0.
pub fn value_at(s: &[u8], at: usize) -> Value
    ensures { result ≡ value_at s.now at }
{
    if s.len() < Value::WIDTH || s.len() - Value::WIDTH < at {
        return cut_value_at(s, at);
    }
    Value {
        kind: s[at],
        payload: number_in(&s[at + 1..at + Value::WIDTH]),
    }
}

// Whether a value of this kind is a write view.
pub fn is_write_view(kind: u64) -> bool
    ensures { (payload : ℕ) → result ≡ is_write_view (record { kind = kind; payload = payload }) }
{
    kind == u64::from(Value::WRITE_VIEW)
}

// The slot that a view with this payload names.
pub fn viewed(payload: u64) -> u64
    ensures { (kind : ℕ) → result ≡ viewed (record { kind = kind; payload = payload }) }
{
    payload
}

// Whether the kind is known, and lets the payload be what it is among `slots` slots.
pub fn well_formed(v: Value, slots: usize) -> bool
    ensures { result ≡ well_formed slots v }
{
    match v.kind {
        Value::INTEGER => true,
        Value::TRUTH => v.payload < 2,
        Value::READ_VIEW | Value::WRITE_VIEW => viewed(v.payload) < slots as u64,
        _ => false,
    }
}
