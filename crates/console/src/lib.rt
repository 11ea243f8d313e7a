// What the programs share at their edge: standard input into an array of a fixed length, and an answer's numbers and its verdict in words.
#![tactic(auto)]

ghost use Rattle.std.specs.Prelude.{◌≡◌, ◌≤◌, length, take, Some, IfOk, IfSome, OnOk};
ghost use Rattle.std.specs.Io.KnownBytes.{Appends, Consumes};
ghost use Rattle.console.specs.Verdict.{numbers_of, verdict_of};

use answers::{accepted, code, place};
use rules::Answer;
use std::fmt;
use std::io::{self, Read, Write};

// An answer as it is printed: its code and its place.
#[derive(Clone, Copy)]
pub struct Numbers(pub Answer);

impl fmt::Display for Numbers {
    ghost output = { λ a. Some (numbers_of a.0) };

    fn fmt<W: fmt::Write>(&self, f: &mut fmt::Formatter<W>) -> fmt::Result {
        write!(f, "{} {}", code(self.0), place(self.0))
    }
}

// Reads until the bytes are full or the input ends, and answers how many were read. They stand at the front, as the input gave them, and none is
// left out for which there was room. A loop of its own: std's read_exact refuses an input that ends sooner, and its read_to_end needs a heap.
pub fn read_full<R: Read>(input: &mut R, bytes: &mut [u8]) -> io::Result<usize>
    ensures within { IfOk result (λ n. n ≤ length bytes.new) }
    ensures read { IfOk result (λ n. Consumes (R.remaining input.old) (R.remaining input.new) (take n bytes.new)) }
    ensures front { IfOk result (λ n. IfSome (R.remaining input.old) (λ given. take n bytes.new ≡ take (length bytes.new) given)) }
{
    let mut done = 0;
    while done < bytes.len() {
        let got = input.read(&mut bytes[done..])?;
        if got == 0 {
            break;
        }
        done += got;
    }
    Ok(done)
}

// Writes the verdict of an answer, on a line.
pub fn write_verdict<W: Write>(out: &mut W, a: Answer) -> io::Result<()>
    ensures { OnOk result (Appends (W.contents out.old) (W.contents out.new) (verdict_of a)) }
{
    if accepted(a) {
        return writeln!(out, "controllable");
    }
    writeln!(out, "refused {}", Numbers(a))
}
