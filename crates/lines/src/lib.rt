// Numbers and lines as text: what is printed of an answer, a store sheet and an output, and the room that it takes. It stands beside the runner, not
// above it: nothing is run here. Definitions in specs/, laws in proofs/.
#![tactic(auto)]

mod above;
mod putting;

ghost use Rattle.lines.specs.Lines.{answer_fields};
ghost use Rattle.lines.specs.PutText.{Begins};

use putting::Writer;
pub use putting::{put_answer, put_lines};
use store::{Answer, Opened};

// The room that a text takes.
#[derive(Drop)]
pub struct Text {
    pub size: usize,
}

impl Text {
    // The most digits of a number.
    pub const PLACES: usize = 20;
    // The most bytes of line 1 before its end: "end ", " block ", " at ", " steps ", and four numbers; and with it.
    pub const FIELDS: usize = 4 + 7 + 4 + 7 + 4 * Text::PLACES;

    pub const ANSWER: usize = Text::FIELDS + 1;
    // The most bytes of a slot's line: two spaces, a space and a sign, two spaces, the line's end, and six numbers.
    pub const SLOT: usize = 1 + 1 + 2 + 1 + 1 + 1 + 6 * Text::PLACES;
    // The most bytes of the last line: a number and the line's end.
    pub const TOTAL: usize = Text::PLACES + 1;

    pub const MOST: usize = Text::ANSWER + Text::SLOT * Opened::MOST_SLOTS + Text::TOTAL;
}

// What line 1 says of an answer, without its end: how many bytes at the start of the text are all of it.
#[tactic(auto, using(crate::proofs::PutText::begins))]
pub fn print_answer(a: Answer, text: &mut [u8; Text::FIELDS]) -> usize
    ensures { Begins text.old (answer_fields a) result text.new }
{
    let mut w = Writer::new(text);
    w.put_fields(a);
    w.end
}
