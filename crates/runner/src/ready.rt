// What every run begins with: its arguments, its store sheet and its programme sheet, in the order of refusals.
ghost use Rattle.syntax.specs.Rows.{Roomy};
ghost use Rattle.runner.specs.WholeRun.{Readies};

use machine::rules;
use machine::rules::Judges;
use store::{Held, Opened};
use syntax::Compiled;
use values::{Refusal, Refused};

// A run that may begin: the store that was opened, and what its rule set judges.
#[derive(Clone, Copy)]
pub struct Ready {
    pub opened: Opened,
    pub judges: Judges,
}

// Judges the arguments (11), opens the store sheet (1 to 5), and checks and compiles the programme sheet (6 to 10).
pub(crate) fn prepare(
    store: &[u8],
    programme: &[u8],
    rule: u32,
    budget: u32,
    compiled: &mut Compiled,
    held: &mut Held,
) -> Result<Ready, Refused>
    requires { Roomy compiled.old }
    ensures { Readies store.now programme.now rule budget compiled.new held.new result }
{
    let judges = rules::judges_of(rule).ok_or(Refusal::Arguments)?;
    if Judges::MOST_BUDGET < budget {
        return Err(Refused::from(Refusal::Arguments));
    }
    let opened = store::open_store(store, held)?;
    programme::compile(programme, opened.table.n, opened.slots, compiled)?;
    Ok(Ready { opened, judges })
}
