// How often the three loops of each part turn.
ghost use Rattle.std.specs.Prelude.{◌≡◌};
ghost use Rattle.reasons.specs.Stands.{part_number, outer_of, middle_of, inner_of};

use crate::Part;
use reader::SoundPlan;

pub fn outer(plan: SoundPlan, part: Part) -> u32
    ensures { result ≡ outer_of plan.entry.n plan.entry.m plan.entry.k (part_number part) }
{
    match part {
        Part::StartEdges | Part::StrictJoins | Part::Upper | Part::OpenJoins => plan.n as u32,
        Part::Limits => plan.m,
        Part::Links | Part::Lower => plan.k,
    }
}

pub fn middle(plan: SoundPlan, part: Part) -> u32
    ensures { result ≡ middle_of plan.entry.n plan.entry.k (part_number part) }
{
    match part {
        Part::StartEdges | Part::Limits | Part::Links => 1,
        Part::StrictJoins | Part::OpenJoins => plan.n as u32,
        Part::Lower | Part::Upper => plan.k,
    }
}

pub fn inner(plan: SoundPlan, part: Part) -> u32
    ensures { result ≡ inner_of plan.entry.n (part_number part) }
{
    match part {
        Part::StartEdges | Part::Limits | Part::Lower | Part::Upper => 1,
        Part::Links => 3,
        Part::StrictJoins | Part::OpenJoins => plan.n as u32,
    }
}
