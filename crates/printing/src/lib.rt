// The printing program's work, from the bytes that it reads to those that it prints. Definitions in specs/, laws in proofs/.
#![tactic(auto)]

mod lending;

ghost use Rattle.std.specs.Prelude.{◌≡◌, ◌<◌, ◌≤◌, length, MatchOption};
ghost use Rattle.store.specs.Sheet.{most_slots, n_of, m_of};
ghost use Rattle.lines.specs.PutText.{Put, Begins, text_room};
ghost use Rattle.printing.specs.PrintedText.{head_width, store_length, slots_of, printed_read, printed};
ghost use Rattle.printing.specs.Requests.{Asked, run_of};

pub use lending::run_lent;
pub use lines::{Text, print_answer};
use lines::{put_answer, put_lines};
use store::{Answer, Opened, Refusal, Value};

// The most bytes of input that are read, and those before the store sheet: the rule byte and the budget.
#[derive(Drop)]
pub struct Input {
    pub size: usize,
}

impl Input {
    pub const MOST: usize = 32768;

    pub const BUDGET: usize = 4;

    pub const HEAD: usize = 1 + Input::BUDGET;
    // The entries of the journal that is lent.
    pub const ENTRIES: usize = 512;
}

// The sizes that a store sheet says: its principals and its slots. They are of one byte and of two, so a cast loses nothing.
fn sizes_of(sheet: &[u8]) -> (usize, usize)
    ensures values { (result.0 ≡ n_of sheet.now) × (result.1 ≡ m_of sheet.now) }
    ensures small { (result.0 < 256) × (result.1 < 65536) }
{
    let n = store::number_at(sheet, 0, 1) as usize;
    let m = store::number_at(sheet, 1, 2) as usize;
    (n, m)
}

// How many of the bytes after the rule and the budget are the store sheet.
fn store_length(rest: &[u8]) -> usize
    ensures { (result ≡ store_length rest.now) × (result ≤ length rest.now) }
{
    let size = rest.len();
    if size < Opened::SIZES {
        return size;
    }
    let (n, m) = sizes_of(rest);
    let said = Opened::SIZES + Opened::MASK * n + m + Value::WIDTH * m;
    said.min(size)
}

// How many slots the end store has, where there is one.
#[tactic(auto, using(crate::proofs::InputSizes::few, crate::proofs::InputSizes::many))]
fn slots_of(sheet: &[u8]) -> usize
    ensures { (result ≡ slots_of sheet.now) × (result ≤ most_slots) }
{
    let (_, said) = sizes_of(sheet);
    if said <= Opened::MOST_SLOTS { said } else { 0 }
}

// A run that an input asks for: both sheets, the rule and the budget.
#[derive(Clone, Copy)]
struct Request<'i> {
    rule: u32,
    budget: u32,
    store: &'i [u8],
    programme: &'i [u8],
}

impl<'i> Request<'i> {
    // What the bytes ask for, if they hold the rule and the budget. The rest is both sheets, cut where the store sheet ends.
    fn read(input: &'i [u8]) -> Option<Request<'i>>
        ensures { MatchOption result (length input.now < head_width) (λ r. Asked input.now r) }
    {
        if input.len() < Input::HEAD {
            return None;
        }
        let rest = &input[Input::HEAD..];
        let (store, programme) = rest.split_at(store_length(rest));
        Some(Request {
            rule: u32::from(input[0]),
            // four bytes, so the cast loses nothing
            budget: store::number_at(input, 1, Input::BUDGET) as u32,
            store,
            programme,
        })
    }

    // Runs both sheets into an output, and puts the run's lines.
    fn print(&self, text: &mut [u8]) -> usize
        requires { text_room ≤ length text.old }
        ensures { Put text.old 0 (run_of self.now) text_room result text.new }
    {
        let slots = slots_of(self.store);
        let mut room = [0; Opened::MOST_OUTPUT];
        let out = &mut room[..Opened::SLOT_WIDTH * slots];
        let a = run_lent(
            self.store,
            self.programme,
            self.rule,
            self.budget,
            Input::ENTRIES,
            out,
        );
        put_lines(text, a, self.store, slots, out)
    }
}

// All the bytes that are read.
fn print_read(text: &mut [u8], read: &[u8]) -> usize
    requires { text_room ≤ length text.old }
    ensures { Put text.old 0 (printed_read read.now) text_room result text.new }
{
    match Request::read(read) {
        Some(request) => request.print(text),
        None => put_answer(text, Answer::from(Refusal::StoreLength)),
    }
}

// What is printed of a standard input: how many bytes at the start of the text are all of it.
pub fn print_run(input: &[u8], text: &mut [u8; Text::MOST]) -> usize
    ensures { Begins text.old (printed input.now) result text.new }
{
    let size = input.len().min(Input::MOST);
    print_read(text, &input[..size])
}
