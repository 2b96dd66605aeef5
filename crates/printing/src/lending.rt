// A run that is lent a journal: the first entries of an array of its own.
ghost use Rattle.std.specs.Prelude.{◌≡◌, min, length};
ghost use Rattle.calculus.specs.Run.{call, answer, output};
ghost use Rattle.printing.specs.PrintedText.{most_entries};

use super::Input;
use store::{Answer, Entry, Value};

// A run that is lent so many entries, but no more than there are. What they hold after it is dropped.
pub fn run_lent(
    store: &[u8],
    programme: &[u8],
    rule: u32,
    budget: u32,
    entries: usize,
    out: &mut [u8],
) -> Answer
    ensures { (result ≡ answer (call store.now programme.now rule budget (length out.old) (min entries most_entries)))
        × (out.new ≡ output (call store.now programme.now rule budget (length out.old) (min entries most_entries)) out.old) }
{
    let none = Value {
        kind: 0,
        payload: 0,
    };
    let empty = Entry {
        block: 0,
        offset: 0,
        slot: 0,
        old: none,
        new: none,
    };
    let mut journal = [empty; Input::ENTRIES];
    let lent = entries.min(Input::ENTRIES);
    runner::run(store, programme, rule, budget, out, &mut journal[..lent])
}
