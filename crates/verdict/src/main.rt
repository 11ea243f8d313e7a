// The small program: one plan file from standard input to `controllable` or `refused CODE PLACE`, and a line feed.
#![tactic(auto)]

ghost use Rattle.std.specs.Prelude.{take, IfSome, OnOk};
ghost use Rattle.std.specs.Io.KnownBytes.{Appends};
ghost use Rattle.rules.specs.Answers.{Answer};
ghost use Rattle.rules.specs.Plan.{version1};
ghost use Rattle.rules.specs.Calls.{Judged};
ghost use Rattle.plan.specs.Layout.{plan_of};
ghost use Rattle.plan.specs.File.{file_answer};
ghost use Rattle.console.specs.Verdict.{verdict_of};
ghost use Rattle.verdict.specs.Program.{IsJudged};

use console::{read_full, write_verdict};
use post::{judge, sound};
use rules::Answer;
use std::io::{self, Read, Write};

// The pair: whether the file is sound, and only then its tables. It answers what Judge alone would.
fn answer(file: &[u8], strict: &mut [i32], open: &mut [i32]) -> Answer
    ensures { Judged version1 (file_answer file.now) (plan_of file.now) strict.old «open».old result strict.new «open».new }
{
    sound(file)?;
    judge(file, strict, open)
}

// From a file's bytes to its verdict, and nothing else is written. The array is one byte longer than the largest file, 12,824 bytes. Of a longer file
// the first 12,825 bytes are judged: no plan file has that length, so they get the very code that the whole file must get.
fn run<R: Read, W: Write>(input: &mut R, output: &mut W) -> io::Result<()>
    ensures { OnOk result (IfSome (R.remaining input.old) (λ given.
        (a : Answer) × IsJudged (take 12825 given) a × Appends (W.contents output.old) (W.contents output.new) (verdict_of a))) }
{
    let mut file = [0u8; 12825];
    let mut strict = [0i32; 4096];
    let mut open = [0i32; 4096];
    let got = read_full(input, &mut file)?;
    let a = answer(&file[..got], &mut strict, &mut open);
    write_verdict(output, a)
}

fn main(rt: HostRuntime) -> io::Result<()> {
    run(&mut rt.reader(), &mut io::writer(&rt))
}
