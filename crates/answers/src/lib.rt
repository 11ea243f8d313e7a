// The paper's two numbers of an answer.
#![tactic(auto)]

ghost use Rattle.std.specs.Prelude.{◌≡◌, eqb};
ghost use Rattle.rules.specs.Answers.{code_of, place_of};

use rules::{Answer, Refusal};

// The code of an answer.
pub fn code(a: Answer) -> u32
    ensures { result ≡ code_of a }
{
    match a {
        Ok(()) => 0,
        Err(Refusal::FewBytes) => 1,
        Err(Refusal::BadVersion) => 2,
        Err(Refusal::BadPoints) => 3,
        Err(Refusal::BadCounts) => 4,
        Err(Refusal::BadLayout) => 5,
        Err(Refusal::BadLimit(_)) => 6,
        Err(Refusal::BadLink(_)) => 7,
        Err(Refusal::RepeatedLink(_)) => 8,
        Err(Refusal::ShortRoom) => 9,
        Err(Refusal::HasLinks) => 10,
        Err(Refusal::NotControllable) => 11,
        Err(Refusal::ReasonsListed(_)) => 11,
        Err(Refusal::NotClosed) => 12,
    }
}

// The place of an answer.
pub fn place(a: Answer) -> u32
    ensures { result ≡ place_of a }
{
    match a {
        Ok(()) => 0,
        Err(Refusal::FewBytes) => 0,
        Err(Refusal::BadVersion) => 0,
        Err(Refusal::BadPoints) => 0,
        Err(Refusal::BadCounts) => 0,
        Err(Refusal::BadLayout) => 0,
        Err(Refusal::BadLimit(at)) => at,
        Err(Refusal::BadLink(at)) => at,
        Err(Refusal::RepeatedLink(at)) => at,
        Err(Refusal::ShortRoom) => 0,
        Err(Refusal::HasLinks) => 0,
        Err(Refusal::NotControllable) => 0,
        Err(Refusal::ReasonsListed(lines)) => lines,
        Err(Refusal::NotClosed) => 0,
    }
}

// Whether an answer is no refusal.
pub fn accepted(a: Answer) -> bool
    ensures { result ≡ eqb (code_of a) 0 }
{
    a.is_ok()
}
