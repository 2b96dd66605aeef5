// Plays a list of cases from standard input, and prints a line for each: its name, the answer of its call, and what output and pause buffer then hold.
// The list is the number of cases (2 bytes) and the cases; specs/Cases.antt says what a case is. Of a list that is cut off or malformed a line
// says so, and nothing more of it is read. Its last line is the number of cases, where all were played.
#![tactic(auto)]

ghost use Rattle.std.specs.Prelude.{◌≡◌, ◌≤◌, ◌<◌, ◌↔◌, length, IsTrue, IfOk};
ghost use Rattle.vectors.specs.Cases.{kind_of, head_of, marked, body_length, Fits};

use printing::{Input, Text};
use runner::Checkpoint;
use std::fmt;
use std::fmt::{Display, Formatter, Write};
use std::io::Read;
use store::{Answer, Opened, Refusal};

// What is wrong with a case.
#[derive(Clone, Copy)]
enum Fault {
    CutOff,
    NoMark,
    NoKind,
    PastLimit,
}

impl Display for Fault {
    fn fmt<W: Write>(&self, f: &mut Formatter<W>) -> fmt::Result {
        f.write_str(match self {
            Fault::CutOff => "cut off in case",
            Fault::NoMark => "no mark at the start of case",
            Fault::NoKind => "no kind of call in case",
            Fault::PastLimit => "a length past its limit in case",
        })
    }
}

// What is wrong with a list: its own beginning or end, or one of its cases, of which the first is number 1.
#[derive(Clone, Copy)]
enum Malformed {
    NoCount { at: usize },
    Case { fault: Fault, case: u64 },
    LeftOver { count: u64 },
}

// The kinds of call.
#[derive(Clone, Copy, PartialEq, Eq)]
enum Kind {
    Run,
    Start,
    CarryOn,
}

impl TryFrom<u64> for Kind {
    type Error = Fault;

    ghost try_from_gives = { λ number r. r ≡ kind_of number };

    fn try_from(number: u64) -> Result<Kind, Fault> {
        match number {
            0 => Ok(Kind::Run),
            1 => Ok(Kind::Start),
            2 => Ok(Kind::CarryOn),
            _ => Err(Fault::NoKind),
        }
    }
}

// What a case says before its name and its sheets: its kind of call, the arguments of the call, and lengths. `old` and `sheet` are those of the output
// and the pause sheet that are carried on from.
#[derive(Clone, Copy)]
struct Head {
    kind: Kind,
    name: u8,
    rule: u32,
    budget: u32,
    output: u16,
    journal: u16,
    pause: u16,
    store: u16,
    programme: u16,
    old: u16,
    sheet: u16,
}

impl Head {
    // The bytes of a head, and of the number of cases.
    const WIDTH: usize = 28;

    const COUNT: usize = 2;
    // The word that each case starts with.
    const MARK: u64 = 0x6573_6163;
    // The most bytes of an output, a slot more than any end store has, and of a pause buffer; and of a name and all sheets.
    const MOST_OUTPUT: usize = Opened::MOST_OUTPUT + Opened::SLOT_WIDTH;

    const MOST_BODY: usize = 32768;
    // What each byte of a buffer is that is lent to a call.
    const LENT: u8 = 0xEE;

    // The bytes after the head.
    fn body_length(self) -> usize
        ensures { result ≡ body_length self }
    {
        usize::from(self.name)
            + usize::from(self.store)
            + usize::from(self.programme)
            + usize::from(self.old)
            + usize::from(self.sheet)
    }

    // Whether there is room for the case's output, for its pause buffer, for its journal, and for its name and sheets.
    fn fits(self) -> bool
        ensures { IsTrue result ↔ Fits self }
    {
        usize::from(self.output) <= Head::MOST_OUTPUT
            && usize::from(self.pause) <= Head::MOST_OUTPUT
            && usize::from(self.journal) <= Input::ENTRIES
            && self.body_length() <= Head::MOST_BODY
    }
}

// A case: its head, and what stands after it.
#[derive(Clone, Copy)]
struct Case<'a> {
    head: Head,
    name: &'a [u8],
    store: &'a [u8],
    programme: &'a [u8],
    old: &'a [u8],
    sheet: &'a [u8],
}

impl<'a> Case<'a> {
    // Cuts a case's body where its name and its sheets end.
    fn cut(head: Head, body: &'a [u8]) -> Case<'a>
        requires { length body.now ≡ body_length head }
        ensures { result.head ≡ head }
    {
        let (name, rest) = body.split_at(usize::from(head.name));
        let (store, rest) = rest.split_at(usize::from(head.store));
        let (programme, rest) = rest.split_at(usize::from(head.programme));
        let (old, sheet) = rest.split_at(usize::from(head.old));
        Case {
            head,
            name,
            store,
            programme,
            old,
            sheet,
        }
    }

    // The call of the case's kind.
    fn call(self, out: &mut [u8], pause: &mut [u8]) -> Answer {
        let Head {
            kind,
            rule,
            budget,
            journal,
            ..
        } = self.head;
        let (store, programme) = (self.store, self.programme);
        match kind {
            Kind::Run => printing::run_lent(
                store,
                programme,
                rule,
                budget,
                usize::from(journal),
                out,
            ),
            Kind::Start => runner::start(store, programme, rule, budget, out, pause),
            Kind::CarryOn => runner::carry_on(
                store, programme, rule, budget, self.old, self.sheet, out, pause,
            ),
        }
    }
}

// Writes bytes to standard output. That a write fails is not told of.
fn put(rt: &impl Print, bytes: &[u8]) {
    let _ = rt.write_all(bytes);
}

// The answer as the printing program says it, after the case's name.
fn print_answer(rt: &impl Print, a: Answer) {
    let mut text = [0u8; Text::FIELDS];
    let end = printing::print_answer(a, &mut text);
    put(rt, b": ");
    put(rt, &text[..end]);
}

// Bytes in hexadecimal, after a space.
fn print_group(rt: &impl Print, bytes: &[u8]) {
    put(rt, b" ");
    for byte in bytes {
        let _ = print!(rt; "{byte:02x}");
    }
}

// Bytes in hexadecimal, in groups of so many.
fn print_bytes(rt: &impl Print, bytes: &[u8], group: usize)
    requires { 0 < group }
{
    for part in bytes.chunks(group) {
        print_group(rt, part);
    }
}

// Whether a buffer that was lent still holds what it held then.
fn print_kept(rt: &impl Print, lent: &[u8]) {
    if lent.iter().all(|byte| *byte == Head::LENT) {
        put(rt, b" untouched");
    } else {
        put(rt, b" changed");
    }
}

// The output, where it was written: by a call that finishes, and by one in stretches that pauses.
fn print_output(rt: &impl Print, kind: Kind, number: u32, out: &[u8]) {
    put(rt, b" output");
    let paused = kind != Kind::Run && number == Refusal::BudgetSpent.number();
    if number != Answer::FINISHED && !paused {
        print_kept(rt, out);
    } else if out.is_empty() {
        put(rt, b" empty");
    } else {
        print_bytes(rt, out, Opened::SLOT_WIDTH);
    }
}

// The pause sheet, where it was written. A run has none.
fn print_pause(rt: &impl Print, kind: Kind, number: u32, pause: &[u8]) {
    if kind == Kind::Run {
        return;
    }
    put(rt, b" pause");
    if number == Refusal::BudgetSpent.number() {
        print_bytes(rt, pause, Checkpoint::WIDTH);
    } else {
        print_kept(rt, pause);
    }
}

// Makes a case's call into what is lent, and prints its line.
fn play_into(rt: &impl Print, case: Case, out: &mut [u8], pause: &mut [u8]) {
    let a = case.call(out, pause);
    put(rt, case.name);
    print_answer(rt, a);
    print_output(rt, case.head.kind, a.number, out);
    print_pause(rt, case.head.kind, a.number, pause);
    put(rt, b"\n");
}

// Lends a case's call an output and a pause buffer of the lengths that it says.
fn play(rt: &impl Print, case: Case)
    requires { Fits case.head }
{
    let mut out = [Head::LENT; Head::MOST_OUTPUT];
    let mut pause = [Head::LENT; Head::MOST_OUTPUT];
    let size = usize::from(case.head.output);
    let width = usize::from(case.head.pause);
    play_into(rt, case, &mut out[..size], &mut pause[..width]);
}

// Whether a case starts with its mark.
#[tactic(auto, unfolding(crate::specs::Cases::marked))]
fn is_marked(s: &[u8; Head::WIDTH]) -> bool
    ensures { result ≡ marked s.now }
{
    store::number_at(s, 0, 4) == Head::MARK
}

// What a head says, where its kind is one of the three.
#[tactic(auto, using(crate::proofs::Heads::one_byte, crate::proofs::Heads::two_bytes, crate::proofs::Heads::four_bytes), unfolding(crate::specs::Cases::head_of, crate::specs::Cases::head_with))]
fn head_of(s: &[u8; Head::WIDTH]) -> Result<Head, Fault>
    ensures { result ≡ head_of s.now }
{
    let kind = Kind::try_from(store::number_at(s, 4, 1))?;
    Ok(Head {
        kind,
        name: store::number_at(s, 5, 1) as u8,
        rule: store::number_at(s, 6, 4) as u32,
        budget: store::number_at(s, 10, 4) as u32,
        output: store::number_at(s, 14, 2) as u16,
        journal: store::number_at(s, 16, 2) as u16,
        pause: store::number_at(s, 18, 2) as u16,
        store: store::number_at(s, 20, 2) as u16,
        programme: store::number_at(s, 22, 2) as u16,
        old: store::number_at(s, 24, 2) as u16,
        sheet: store::number_at(s, 26, 2) as u16,
    })
}

// Reads until the buffer is full, the input ends or a read fails: how many bytes it holds then. (`blockrun` passes a failed read on.) The loop counts them, since `read_exact` does not
// say how many it read, and `read_to_end` needs a heap.
fn read_full(input: &mut impl Read, buffer: &mut [u8]) -> usize
    ensures { result ≤ length buffer.new }
{
    let mut done = 0;
    while done < buffer.len() {
        match input.read(&mut buffer[done..]) {
            Ok(0) | Err(_) => break,
            Ok(got) => done += got,
        }
    }
    done
}

// Fills the buffer with bytes of a case.
fn fill(input: &mut impl Read, buffer: &mut [u8]) -> Result<(), Fault> {
    if read_full(input, buffer) < buffer.len() {
        return Err(Fault::CutOff);
    }
    Ok(())
}

// Reads the head of the next case.
fn read_head(input: &mut impl Read) -> Result<Head, Fault>
    ensures { IfOk result Fits }
{
    let mut bytes = [0u8; Head::WIDTH];
    fill(input, &mut bytes)?;
    if !is_marked(&bytes) {
        return Err(Fault::NoMark);
    }
    let head = head_of(&bytes)?;
    if !head.fits() {
        return Err(Fault::PastLimit);
    }
    Ok(head)
}

// Reads and plays the next case.
fn play_next(rt: &impl Print, input: &mut impl Read) -> Result<(), Fault> {
    let head = read_head(input)?;
    let size = head.body_length();
    let mut body = [0u8; Head::MOST_BODY];
    fill(input, &mut body[..size])?;
    play(rt, Case::cut(head, &body[..size]));
    Ok(())
}

// Plays so many cases.
fn play_all(rt: &impl Print, input: &mut impl Read, count: u64) -> Result<(), Malformed> {
    for case in 1..=count {
        play_next(rt, input).map_err(|fault| Malformed::Case { fault, case })?;
    }
    Ok(())
}

// Plays the whole list: the number of its cases.
fn play_list(rt: &impl Print, input: &mut impl Read) -> Result<u64, Malformed> {
    let mut start = [0u8; Head::COUNT];
    let at = read_full(input, &mut start);
    if at < Head::COUNT {
        return Err(Malformed::NoCount { at });
    }
    let count = store::number_at(&start, 0, Head::COUNT);
    play_all(rt, input, count)?;
    let mut after = [0u8; 1];
    if read_full(input, &mut after) != 0 {
        return Err(Malformed::LeftOver { count });
    }
    Ok(count)
}

// Says what is wrong with a list, in three writes.
fn tell(rt: &impl Print, malformed: Malformed) {
    put(rt, b"list of cases: ");
    let number = match malformed {
        Malformed::NoCount { at } => {
            put(rt, b"cut off before its cases, at byte ");
            at as u64
        }
        Malformed::Case { fault, case } => {
            let _ = print!(rt; "{fault} ");
            case
        }
        Malformed::LeftOver { count } => {
            put(rt, b"bytes left over after case ");
            count
        }
    };
    let _ = println!(rt; "{number}");
}

fn main(rt: HostRuntime) {
    match play_list(&rt, &mut rt.stdin()) {
        Ok(count) => {
            let _ = println!(rt; "cases played: {count}");
        }
        Err(malformed) => tell(&rt, malformed),
    }
}
