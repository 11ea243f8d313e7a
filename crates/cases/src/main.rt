// The plans of documents 01 and 02, through the calls. Reads entries from standard input and prints of each: its name; Sound's code and place; Judge's
// code and place and, with 0, both tables; Check's code and place for the tables that Judge left; of each limit that is then added to those tables,
// one after the other, the limit, Add's code and place, both tables after it, and what it left in the scratch; Earliest's code and place and, with
// 0, the times. An entry is twelve bytes, the lengths of a name and of a file and the number of limits to add, then the name, the file and the
// limits, each as a file has it; the repository's tools/paper_cases.py makes the input and what is to be printed.
#![tactic(auto)]

ghost use Rattle.std.specs.Prelude.{◌≤◌, length};
ghost use Rattle.std.specs.Iterator.{at_most};
ghost use Rattle.cases.specs.Case.{AllHold};
ghost use Rattle.cases.specs.Paper.{paper};

use console::{Numbers, read_full};
use fields::{signed_at, unsigned_at};
use post::Side;
use std::{fmt, io};

// What the documents say of the plans that they work through holds of the definitions that the calls are held to.
fn worked_plans_hold()
    ensures { AllHold paper }
{}

// A plan's name, its file, and the limits to add to it.
struct Entry<'a> {
    name: &'a [u8],
    file: &'a [u8],
    limits: &'a [u8],
}

// The entries of an input, one behind the other; what does not fit ends it.
#[derive(Drop)]
struct Entries<'a>(&'a [u8]);

impl<'a> Iterator for Entries<'a> {
    type Item = Entry<'a>;

    ghost remaining = { λ s. at_most (length s.0.now) };

    fn next(&mut self) -> Option<Entry<'a>> {
        let (head, behind) = self.0.split_at_checked(12)?;
        let (name, behind) = behind.split_at_checked(unsigned_at(head, 0) as usize)?;
        let (file, behind) = behind.split_at_checked(unsigned_at(head, 4) as usize)?;
        let (limits, rest) = behind.split_at_checked(12 * (unsigned_at(head, 8) as usize))?;
        self.0 = rest;
        Some(Entry { name, file, limits })
    }
}

// A cell or a time as it is printed: a number, or the mark by its name.
#[derive(Clone, Copy)]
struct Shown(i32);

impl fmt::Display for Shown {
    fn fmt<W: fmt::Write>(&self, f: &mut fmt::Formatter<W>) -> fmt::Result {
        match self.0 {
            i32::MAX => write!(f, "mark"),
            v => write!(f, "{v}"),
        }
    }
}

// Cells as they are printed, each behind a space.
#[derive(Clone, Copy)]
struct Row<'a>(&'a [i32]);

impl fmt::Display for Row<'_> {
    fn fmt<W: fmt::Write>(&self, f: &mut fmt::Formatter<W>) -> fmt::Result {
        for cell in self.0 {
            write!(f, " {}", Shown(*cell))?;
        }
        Ok(())
    }
}

// Prints a word and the n rows of a table as row access hands them back, with a semicolon behind each, on a line.
fn print_table(
    rt: &impl Print,
    word: &str,
    strict: &[i32],
    open: &[i32],
    n: usize,
    which: Side,
) -> io::Result<()> {
    print!(rt; "{word}")?;
    for x in 0..n {
        print!(rt; "{};", Row(post::row(strict, open, n, x, which)))?;
    }
    println!(rt)
}

// Prints both tables, of n points.
fn print_tables(rt: &impl Print, strict: &[i32], open: &[i32], n: usize) -> io::Result<()> {
    print_table(rt, "strict", strict, open, n, Side::Strict)?;
    print_table(rt, "open", strict, open, n, Side::Open)
}

// The number of points that a file names; 0 where it names more than there may be.
fn points(file: &[u8]) -> usize
    ensures { result ≤ 64 }
{
    let n = unsigned_at(file, 4) as usize;
    if n <= 64 { n } else { 0 }
}

// How many cells from the first one on hold a number.
fn same(cells: &[i64], v: i64) -> usize
    ensures { result ≤ length cells.now }
{
    cells
        .iter()
        .position(|cell| *cell != v)
        .unwrap_or(cells.len())
}

// Prints of a scratch that held 7 in every cell how many cells from the first one on are 0 now, and how many behind those still hold 7.
fn print_scratch(rt: &impl Print, scratch: &[i64]) -> io::Result<()> {
    let zeros = same(scratch, 0);
    let kept = same(&scratch[zeros..], 7);
    println!(rt; "scratch {zeros} {kept}")
}

// Add of a limit, with a scratch that is not clean. It is a function of its own so that a file with no limit to add clears no scratch.
fn added(
    rt: &impl Print,
    file: &[u8],
    limit: &[u8],
    strict: &mut [i32],
    open: &mut [i32],
) -> io::Result<()> {
    let x = unsigned_at(limit, 0);
    let y = unsigned_at(limit, 4);
    let w = signed_at(limit, 8);
    println!(rt; "limit {x}>{y} {}", Shown(w))?;
    let mut scratch = [7i64; 8192];
    let a = post::add(file, x, y, w, strict, open, &mut scratch);
    println!(rt; "add {}", Numbers(a))?;
    print_tables(rt, strict, open, points(file))?;
    print_scratch(rt, &scratch)
}

// Add of limits that lie one behind the other, in that order.
fn added_all(
    rt: &impl Print,
    file: &[u8],
    limits: &[u8],
    strict: &mut [i32],
    open: &mut [i32],
) -> io::Result<()> {
    for limit in limits.chunks_exact(12) {
        added(rt, file, limit, strict, open)?;
    }
    Ok(())
}

// Sound and Judge of a file, Check of the file with the tables that Judge left, and limits added to them. Judge is asked of a file that Sound refuses
// too: it has to refuse it by itself.
fn judged(rt: &impl Print, file: &[u8], limits: &[u8]) -> io::Result<()> {
    let mut strict = [0i32; 4096];
    let mut open = [0i32; 4096];
    println!(rt; "sound {}", Numbers(post::sound(file)))?;
    let a = post::judge(file, &mut strict, &mut open);
    println!(rt; "judge {}", Numbers(a))?;
    if a.is_ok() {
        print_tables(rt, &strict, &open, points(file))?;
    }
    println!(rt; "check {}", Numbers(post::check(file, &strict, &open)))?;
    added_all(rt, file, limits, &mut strict, &mut open)
}

// Earliest of a file.
fn timed(rt: &impl Print, file: &[u8]) -> io::Result<()> {
    let mut strict = [0i32; 4096];
    let mut open = [0i32; 4096];
    let mut times = [0i32; 64];
    let a = post::earliest(file, &mut strict, &mut open, &mut times);
    println!(rt; "earliest {}", Numbers(a))?;
    if a.is_ok() {
        println!(rt; "times{}", Row(&times[..points(file)]))?;
    }
    Ok(())
}

// Prints the lines of each entry.
fn report(rt: &impl Print, all: &[u8]) -> io::Result<()> {
    for Entry { name, file, limits } in Entries(all) {
        rt.write_all(name)?;
        println!(rt)?;
        judged(rt, file, limits)?;
        timed(rt, file)?;
    }
    Ok(())
}

fn main(rt: HostRuntime) -> io::Result<()> {
    worked_plans_hold();
    let mut space = [0u8; 16384];
    let mut input = rt.reader();
    let got = read_full(&mut input, &mut space)?;
    report(&rt, &space[..got])
}
