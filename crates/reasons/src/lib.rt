// The chain of reasons (document 02, item 4): the list of lines that refutes a night, worked out in a lent work room and written into six lent slices. One pass
// counts the lines, a second one writes them: a line past the room is not written, and the first pass is given none.
#![tactic(auto)]

mod listing;
mod lists;
mod notes;
mod places;
mod starting;
mod stepping;
mod work;
mod working;

ghost use Rattle.plan.specs.Layout.{plan_of};
ghost use Rattle.plan.specs.File.{file_answer};
ghost use Rattle.chain.specs.Call.{Reasoned};
ghost use Rattle.reasons.specs.Notes.{columns};

use listing::listed;
use lists::Lists;
use offers::Draft;
use reader::read;
use rules::{Answer, Refusal};
use work::Work;

// The parts of the working-out, in their order: those of what is given, and those of a sweep.
#[derive(Clone, Copy)]
pub enum Part {
    // what is given
    StartEdges,
    Limits,
    Links,
    // a sweep
    StrictJoins,
    Lower,
    Upper,
    OpenJoins,
}

// Where the working-out stands within a part: how many steps of its three loops are done.
#[derive(Clone, Copy)]
pub struct Turns {
    pub a: u32,
    pub b: u32,
    pub c: u32,
}

// One step: a line, if there is one, and where it goes on in its part, unless that is through.
#[derive(Clone, Copy)]
pub struct Step {
    pub line: Option<Draft>,
    pub next: Option<Turns>,
}

// The chain of reasons of a plan file, into six lent slices, with a lent work room. It is total: it takes any bytes and any slices.
pub fn reasons(
    file: &[u8],
    kinds: &mut [u32],
    froms: &mut [u32],
    tos: &mut [u32],
    weights: &mut [i64],
    firsts: &mut [u32],
    seconds: &mut [u32],
    work: &mut [i64],
) -> Answer
    ensures { Reasoned (file_answer file.now) (plan_of file.now) (columns kinds.old froms.old tos.old weights.old firsts.old seconds.old) work.old result (columns kinds.new froms.new tos.new weights.new firsts.new seconds.new) work.new }
{
    let plan = read(file)?;
    if work.len() < 4 * (plan.n * plan.n) {
        return Err(Refusal::ShortRoom);
    }
    let mut lists = Lists {
        kinds,
        froms,
        tos,
        weights,
        firsts,
        seconds,
        room: 0,
    };
    let mut work = Work { plan, cells: work };
    listed(&mut lists, &mut work)
}
