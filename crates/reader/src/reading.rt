// From lent bytes to a plan.
ghost use Rattle.std.specs.Prelude.{◌≡◌, MatchResult};
ghost use Rattle.rules.specs.Answers.{Done};
ghost use Rattle.plan.specs.File.{file_answer};

use crate::SoundPlan;
use plan::{head, sound};
use rules::Refusal;

// The plan of a file that is known to be sound. The header is read once, for the counts.
pub fn known(file: &[u8]) -> SoundPlan
    requires { file_answer file.now ≡ Done }
    ensures { result.file ≡ file.entry }
{
    let h = head(file);
    SoundPlan {
        file,
        n: h.points as usize,
        m: h.limits,
        k: h.links,
    }
}

// The plan of a file, or why the file is none: codes 1 to 8.
pub fn read(file: &[u8]) -> Result<SoundPlan, Refusal>
    ensures { MatchResult result (λ plan. plan.file ≡ file.entry) (λ refusal. file_answer file.now ≡ Err refusal) }
{
    sound(file)?;
    Ok(known(file))
}
