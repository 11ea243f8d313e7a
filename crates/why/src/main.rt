// The program behind `./night why`: one plan file from standard input to its verdict, as the small program writes it, and for a refused night its chain of reasons, a
// line for each with its kind, from, to, weight and two references. Where the list is longer than these arrays the verdict is `refused 9 0`.
#![tactic(auto)]

ghost use Rattle.std.specs.Prelude.{◌≤◌, length};

use console::{read_full, write_verdict};
use reasons::reasons;
use rules::{Answer, Refusal};
use std::io;

// Writes so many lines of a list, which is a list for each part of a line, as the call's C form has it.
fn write_lines(
    rt: &impl Print,
    kinds: &[u32],
    froms: &[u32],
    tos: &[u32],
    weights: &[i64],
    firsts: &[u32],
    seconds: &[u32],
    count: usize,
) -> io::Result<()>
    requires { (count ≤ length kinds.now) × (count ≤ length froms.now) × (count ≤ length tos.now) × (count ≤ length weights.now) × (count ≤ length firsts.now) × (count ≤ length seconds.now) }
{
    for i in 0..count {
        println!(rt;
            "{} {} {} {} {} {}",
            kinds[i], froms[i], tos[i], weights[i], firsts[i], seconds[i]
        )?;
    }
    Ok(())
}

// How many lines an answer says there are to write: none unless it lists reasons, and no more than the arrays hold.
fn listed(a: Answer) -> usize
    ensures { result ≤ 65536 }
{
    match a {
        Err(Refusal::ReasonsListed(lines)) => (lines as usize).min(65536),
        _ => 0,
    }
}

// The byte array is one longer than the largest file, as in the small program.
fn main(rt: HostRuntime) -> io::Result<()> {
    let mut file = [0u8; 12825];
    let mut kinds = [0u32; 65536];
    let mut froms = [0u32; 65536];
    let mut tos = [0u32; 65536];
    let mut weights = [0i64; 65536];
    let mut firsts = [0u32; 65536];
    let mut seconds = [0u32; 65536];
    let mut work = [0i64; 16384];
    let mut input = rt.reader();
    let got = read_full(&mut input, &mut file)?;
    let a = reasons(
        &file[..got],
        &mut kinds,
        &mut froms,
        &mut tos,
        &mut weights,
        &mut firsts,
        &mut seconds,
        &mut work,
    );
    write_verdict(&mut io::writer(&rt), a)?;
    write_lines(
        &rt,
        &kinds,
        &froms,
        &tos,
        &weights,
        &firsts,
        &seconds,
        listed(a),
    )
}
