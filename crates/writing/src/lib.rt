// Plans written: a plan whose fields are lent as lists, into a lent buffer.
#![tactic(auto)]

mod even;
mod lists;
mod puts;

ghost use Rattle.std.specs.Prelude.{◌≡◌, ◌++◌, ◌≤◌, length, drop, MatchResult};
ghost use Rattle.rules.specs.Answers.{Done};
ghost use Rattle.writing.specs.PlanLists.{lists};
ghost use Rattle.writing.specs.Puts.{lent, lists_answer};
ghost use Rattle.writing.specs.RoundTrips.{size_of};
ghost use Rattle.writing.specs.Wrote.{file_of, Wrote};

use even::EvenLists;
use lists::PlanLists;
use plan::{counts_answer, limits, links};
use puts::{put_head, put_limits, put_links};
use rules::{Answer, Refusal};

// Codes 3 to 8: even lists that hold a plan in range, or why these hold none.
fn sound(lists: PlanLists) -> Result<EvenLists, Refusal>
    ensures { MatchResult result (λ even. (even.lists ≡ lists.entry) × (lists_answer (lent lists.entry) ≡ Done)) (λ refusal. lists_answer (lent lists.entry) ≡ Err refusal) }
{
    counts_answer(lists.n, lists.from.len(), lists.act.len(), lists.even())?;
    let even = EvenLists { lists };
    limits(&even, lists.n, even.m())?;
    links(&even, lists.n, even.m(), even.k())?;
    Ok(even)
}

// The file at the start of a buffer that has room for it.
fn lay_down(even: EvenLists, buffer: &mut [u8])
    requires { size_of (lent even.lists) ≤ length buffer.old }
    ensures { buffer.new ≡ file_of (lent even.entry.lists) ++ drop (length (file_of (lent even.entry.lists))) buffer.old }
{
    put_head(buffer, even);
    put_limits(buffer, even);
    put_links(buffer, even);
}

// Write: the plan's file at the start of the buffer, or the buffer as it was.
pub fn write(
    n: u32,
    from: &[u32],
    to: &[u32],
    weight: &[i32],
    act: &[u32],
    con: &[u32],
    short: &[u32],
    long: &[u32],
    buffer: &mut [u8],
) -> Answer
    ensures { Wrote (lists n from.now to.now weight.now act.now con.now short.now long.now) buffer.old result buffer.new }
{
    let even = sound(PlanLists {
        n,
        from,
        to,
        weight,
        act,
        con,
        short,
        long,
    })?;
    if buffer.len() < even.size() {
        return Err(Refusal::ShortRoom);
    }
    lay_down(even, buffer);
    Ok(())
}
