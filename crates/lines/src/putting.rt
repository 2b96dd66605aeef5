// The lines, put into a text one after the other.
ghost use Rattle.std.specs.Prelude.{◌≡◌, ◌+◌, ◌*◌, ◌^◌, ◌≤◌, ◌<◌, [], ◌∷◌, length};
ghost use Rattle.values.specs.SignedIntegers.{negative, magnitude};
ghost use Rattle.store.specs.Sheet.{most_slots};
ghost use Rattle.lines.specs.Decimal.{digit, decimal_within};
ghost use Rattle.lines.specs.Lines.{field, answer_fields, answer_line, payload_field, slot_line, slot_lines, total_line, lines};
ghost use Rattle.lines.specs.PutText.{Put, Begins, field_room, fields_room, answer_room, slot_room, total_room, text_room};
ghost use Rattle.lines.specs.Written.{HasRoom, Written};

use super::Text;
use super::above::{number_above, said_principals};
use store::{Answer, Opened, Value};

// A text, and where what was put into it ends.
#[derive(Drop)]
pub(crate) struct Writer<'t> {
    text: &'t mut [u8],
    pub(crate) end: usize,
}

impl<'t> Writer<'t> {
    pub(crate) fn new(text: &'t mut [u8]) -> Writer<'t>
        ensures same { result.text.ghost_name ≡ text.entry.ghost_name }
        ensures text { result.text.now ≡ text.old }
        ensures end { result.end ≡ 0 }
    {
        Writer { text, end: 0 }
    }

    fn put_bytes(&mut self, bytes: &[u8])
        requires { HasRoom self.old (length bytes.now) }
        ensures { Written self.old bytes.now (length bytes.now) self.new }
    {
        let end = self.end + bytes.len();
        self.text[self.end..end].copy_from_slice(bytes);
        self.end = end;
    }

    fn put_digit(&mut self, d: u64)
        requires { (d < 10) × HasRoom self.old 1 }
        ensures { Written self.old (digit d ∷ []) 1 self.new }
    {
        self.text[self.end] = b'0' + d as u8;
        self.end += 1;
    }

    // A number's digits: those before the last, and then the last. (By hand, as `decimal_within` says them; `DecimalText` holds of that.)
    fn put_digits(&mut self, places: usize, n: u64)
        requires { HasRoom self.old places }
        ensures { Written self.old (decimal_within places n) places self.new }
    {
        if places == 0 {
            return;
        }
        if n < 10 {
            return self.put_digit(n);
        }
        self.put_digits(places - 1, n / 10);
        self.put_digit(n % 10);
    }

    // A number after a word.
    fn put_field(&mut self, word: &[u8], n: u64)
        requires { HasRoom self.old (field_room (length word.now)) }
        ensures { Written self.old (field word.now n) (field_room (length word.now)) self.new }
    {
        self.put_bytes(word);
        self.put_digits(Text::PLACES, n);
    }

    // Line 1, but for its end. Block and offset are usize, which has no `From` into u64.
    pub(crate) fn put_fields(&mut self, a: Answer)
        requires { HasRoom self.old fields_room }
        ensures { Written self.old (answer_fields a) fields_room self.new }
    {
        self.put_field(b"end ", u64::from(a.number));
        self.put_field(b" block ", a.block as u64);
        self.put_field(b" at ", a.offset as u64);
        self.put_field(b" steps ", u64::from(a.steps));
    }

    // Line 1.
    fn put_answer(&mut self, a: Answer)
        requires { HasRoom self.old answer_room }
        ensures { Written self.old (answer_line a) answer_room self.new }
    {
        self.put_fields(a);
        self.put_bytes(b"\n");
    }

    fn put_payload(&mut self, v: Value)
        requires { HasRoom self.old (field_room 2) }
        ensures { Written self.old (payload_field v) (field_room 2) self.new }
    {
        if is_negative(v) {
            self.put_field(b" -", v.payload.wrapping_neg());
        } else {
            self.put_field(b" ", v.payload);
        }
    }

    // A slot's line: slot, owner, kind, payload, count, principals at or above the owner.
    fn put_slot(&mut self, slot: u64, owner: u64, v: Value, writes: u64, above: u64)
        requires { HasRoom self.old slot_room }
        ensures { Written self.old (slot_line slot owner v writes above) slot_room self.new }
    {
        self.put_field(b"", slot);
        self.put_field(b" ", owner);
        self.put_field(b" ", u64::from(v.kind));
        self.put_payload(v);
        self.put_field(b" ", writes);
        self.put_field(b" ", above);
        self.put_bytes(b"\n");
    }

    // The lines of an output's slots, with their owners from the store sheet.
    fn put_slots(&mut self, sheet: &[u8], out: &[u8], slots: usize)
        requires { (slots ≤ most_slots) × HasRoom self.old (slot_room * slots) }
        ensures { Written self.old (slot_lines sheet.now out.now 0 slots) (slot_room * slots) self.new }
    {
        let n = said_principals(sheet);
        let owners = Opened::SIZES + Opened::MASK * n;
        for i in 0..slots {
            let owner = store::number_at(sheet, owners + i, 1);
            let v = store::value_at(out, Opened::SLOT_WIDTH * i);
            let writes = store::count_at(out, i as u16);
            let above = number_above(sheet, owner as usize);
            self.put_slot(i as u64, owner, v, writes, above);
        }
    }

    // The last line.
    fn put_total(&mut self, out: &[u8], slots: usize)
        requires { (slots ≤ most_slots) × HasRoom self.old total_room }
        ensures { Written self.old (total_line out.now slots) total_room self.new }
    {
        self.put_field(b"", store::counts_total(out, slots as u16));
        self.put_bytes(b"\n");
    }

    // A run's lines. A refusal has line 1 only.
    fn put_lines(&mut self, a: Answer, sheet: &[u8], slots: usize, out: &[u8])
        requires { (slots ≤ most_slots) × HasRoom self.old text_room }
        ensures { Written self.old (lines a sheet.now slots out.now) text_room self.new }
    {
        self.put_answer(a);
        if a.number == Answer::FINISHED {
            self.put_slots(sheet, out, slots);
            self.put_total(out, slots);
        }
    }
}

// Whether a value is printed with a minus sign.
#[tactic(auto, using(values::proofs::SignedIntegers::signed, values::proofs::SignedIntegers::unsigned))]
fn is_negative(v: Value) -> bool
    ensures { result ≡ negative v }
{
    v.kind == Value::INTEGER && Value::SIGN <= v.payload
}

// Line 1, at the text's start.
pub fn put_answer(text: &mut [u8], a: Answer) -> usize
    requires { answer_room ≤ length text.old }
    ensures { Put text.old 0 (answer_line a) answer_room result text.new }
{
    let mut w = Writer::new(text);
    w.put_answer(a);
    w.end
}

// A run's lines, at the text's start.
pub fn put_lines(text: &mut [u8], a: Answer, sheet: &[u8], slots: usize, out: &[u8]) -> usize
    requires { (slots ≤ most_slots) × (text_room ≤ length text.old) }
    ensures { Put text.old 0 (lines a sheet.now slots out.now) text_room result text.new }
{
    let mut w = Writer::new(text);
    w.put_lines(a, sheet, slots, out);
    w.end
}
