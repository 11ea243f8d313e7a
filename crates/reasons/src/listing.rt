// The list counted, and then written where there is room for it.
ghost use Rattle.std.specs.Prelude.{◌≡◌};
ghost use Rattle.plan.specs.Layout.{plan_of};
ghost use Rattle.plan.specs.File.{file_answer};
ghost use Rattle.chain.specs.Call.{Reasoned};
ghost use Rattle.reasons.specs.Lent.{lists_of, SameLists, SameWork};

use crate::lists::Lists;
use crate::work::Work;
use crate::working::run;
use rules::{Answer, Refusal};
use std::ops::ControlFlow;

// The answer for a sound file, with work room enough. The first pass has no room, so it writes no line.
pub fn listed(lists: &mut Lists<'_>, work: &mut Work<'_>) -> Answer
    requires { lists.old.room ≡ 0 }
    ensures same { SameLists lists.old lists.new × SameWork work.old work.new }
    ensures reasoned { Reasoned (file_answer work.old.plan.file.now) (plan_of work.old.plan.file.now) (lists_of lists.old) work.old.cells.now result (lists_of lists.new) work.new.cells.now }
{
    let ControlFlow::Break(counted) = run(lists, work) else {
        work.clear(); // nothing is left of the work
        return Ok(());
    };
    lists.room = lists.most();
    if counted > lists.room {
        work.clear();
        return Err(Refusal::ShortRoom);
    }
    let _ = run(lists, work);
    work.clear();
    Err(Refusal::ReasonsListed(counted as u32))
}
