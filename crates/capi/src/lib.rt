// Calls for C and Rust. A slice, of bytes or of a journal's entries, is passed as a pointer and a length: how many of them there are. An answer is
// returned as a struct.
#![tactic(auto)]

ghost use Rattle.std.specs.Prelude.{◌≡◌, length};
ghost use Rattle.values.specs.Result.{refusal_of};
ghost use Rattle.store.specs.Sheet.{store_sheet, table_sheet};
ghost use Rattle.syntax.specs.Sheet.{programme_sheet, check_answer};
ghost use Rattle.calculus.specs.Run.{call, answer, output, journal as journalAfter};
ghost use Rattle.pausing.specs.Stretches.{opening, checkpoint, stretch, ComesTo};
ghost use Rattle.capi.specs.Version.{version};

use store::{Answer, Entry};

// Which version of the library this is.
#[derive(Drop)]
struct Version {}

impl Version {
    // 0.1.0: major, minor and patch have three digits each.
    const NUMBER: u32 = 1_000;
}

// The version as one number, major × 1,000,000 + minor × 1,000 + patch.
#[unsafe(no_mangle)]
pub extern "C" fn muntyzhap_version() -> u32
    ensures { result ≡ version }
{
    Version::NUMBER
}

// The refusal of a store sheet, 1 to 5, or 0.
#[unsafe(no_mangle)]
pub extern "C" fn muntyzhap_check_store(sheet: &[u8]) -> u32
    ensures { result ≡ refusal_of (store_sheet sheet.now) }
{
    values::number_of(store::check_store(sheet))
}

// The refusal of a table sheet, 1 to 4, or 0.
#[unsafe(no_mangle)]
pub extern "C" fn muntyzhap_check_table(sheet: &[u8]) -> u32
    ensures { result ≡ refusal_of (table_sheet sheet.now) }
{
    values::number_of(store::check_table(sheet))
}

// The refusal of a programme sheet against n principals and `slots` slots, 6 to 10, or 0; its block and its offset there.
#[tactic(auto, unfolding(values::specs::Refusal::said_at, values::specs::Result::unplaced, syntax::specs::Sheet::check_answer))]
#[unsafe(no_mangle)]
pub extern "C" fn muntyzhap_check_programme(
    sheet: &[u8],
    n: usize,
    slots: usize,
    block: &mut usize,
    offset: &mut usize,
) -> u32
    ensures value { result ≡ (check_answer (programme_sheet n slots sheet.now)).number }
    ensures block_after { block.new ≡ (check_answer (programme_sheet n slots sheet.now)).block }
    ensures offset_after { offset.new ≡ (check_answer (programme_sheet n slots sheet.now)).offset }
{
    match programme::check_programme(sheet, n, slots) {
        Ok(()) => {
            *block = 0;
            *offset = 0;
            Answer::FINISHED
        }
        Err(refused) => {
            *block = refused.block;
            *offset = refused.offset;
            refused.refusal.number()
        }
    }
}

// One run of both sheets under a rule's number and a budget. It takes an output, `Opened::SLOT_WIDTH` bytes for each slot, and a journal of any
// length, 0 too, an entry for each write. It answers how the run ended; a refused one leaves output and journal as they were.
#[unsafe(no_mangle)]
pub extern "C" fn muntyzhap_run(
    store: &[u8],
    programme: &[u8],
    rule: u32,
    budget: u32,
    out: &mut [u8],
    journal: &mut [Entry],
) -> Answer
    ensures { (result ≡ answer (call store.now programme.now rule budget (length out.old) (length journal.old)))
        × (out.new ≡ output (call store.now programme.now rule budget (length out.old) (length journal.old)) out.old)
        × (journal.new ≡ journalAfter (call store.now programme.now rule budget (length out.old) (length journal.old)) journal.old) }
{
    runner::run(store, programme, rule, budget, out, journal)
}

// A run by stretches, from its start. It takes an output as a run does, and a pause buffer of `Checkpoint::WIDTH` bytes. Out of budget, it answers 17 by
// writing both; finished, it writes the output; any other refusal leaves both as they were.
#[unsafe(no_mangle)]
pub extern "C" fn muntyzhap_start(
    store: &[u8],
    programme: &[u8],
    rule: u32,
    budget: u32,
    out: &mut [u8],
    pause: &mut [u8],
) -> Answer
    ensures { ComesTo opening (stretch store.now programme.now rule budget (length out.old) (length pause.old))
        out.old pause.old out.new pause.new result }
{
    runner::start(store, programme, rule, budget, out, pause)
}

// Carries a run on from an old output and an old pause sheet, which are only read. The budget includes the steps so far.
#[unsafe(no_mangle)]
pub extern "C" fn muntyzhap_carry_on(
    store: &[u8],
    programme: &[u8],
    rule: u32,
    budget: u32,
    old: &[u8],
    sheet: &[u8],
    out: &mut [u8],
    pause: &mut [u8],
) -> Answer
    ensures { ComesTo (checkpoint old.now sheet.now) (stretch store.now programme.now rule budget (length out.old) (length pause.old))
        out.old pause.old out.new pause.new result }
{
    runner::carry_on(store, programme, rule, budget, old, sheet, out, pause)
}
