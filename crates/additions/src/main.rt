// Runs Add on case f of the paper and on closed tables that came from nowhere, with cells at both ends of the closed range, and prints a line of code and place for each.
#![tactic(auto)]

use console::Numbers;
use std::io;

// Adds a limit to two tables, with a scratch that is not clean.
fn run(
    rt: &impl Print,
    file: &[u8],
    x: u32,
    y: u32,
    w: i32,
    strict: &mut [i32],
    open: &mut [i32],
) -> io::Result<()> {
    let mut scratch = [7i64; 18];
    let a = adding::add(file, x, y, w, strict, open, &mut scratch);
    println!(rt; "{}", Numbers(a))
}

// Case f: the tables of e. 0>1 5 is taken, 0>1 4 and 1>0 -3 are refused; then a weight out of range, and a table that is too short.
fn paper(rt: &impl Print) -> io::Result<()> {
    let file = [
        1u8, 0, 0, 0, 2, 0, 0, 0, 0, 0, 0, 0, 1, 0, 0, 0, 24, 0, 0, 0, 24, 0, 0, 0, 0, 0, 0, 0, 1,
        0, 0, 0, 2, 0, 0, 0, 5, 0, 0, 0,
    ];
    let mut strict = [0i32, 5, -2, 0];
    let mut open = [0i32, 2, -2, 0];
    run(rt, &file, 0, 1, 5, &mut strict, &mut open)?;
    run(rt, &file, 0, 1, 4, &mut strict, &mut open)?;
    run(rt, &file, 1, 0, -3, &mut strict, &mut open)?;
    run(rt, &file, 0, 1, 1000001, &mut strict, &mut open)?;
    let mut short = [0i32, 5, -2];
    run(rt, &file, 0, 1, 5, &mut short, &mut open)
}

// Two points and no limit, 1 at most and at least 63,000,000 after 0: a limit that the cells rule out; the same tables with a cell that a sum undercuts; and one beyond the range.
fn two(rt: &impl Print) -> io::Result<()> {
    let file = [
        1u8, 0, 0, 0, 2, 0, 0, 0, 0, 0, 0, 0, 0, 0, 0, 0, 24, 0, 0, 0, 24, 0, 0, 0,
    ];
    let mut strict = [0i32, 63000000, -63000000, 0];
    let mut open = [0i32, 63000000, -63000000, 0];
    run(rt, &file, 0, 1, 1000000, &mut strict, &mut open)?;
    run(rt, &file, 1, 0, 0, &mut strict, &mut open)?;
    let mut under = [0i32, 62999999, -63000000, 0];
    run(rt, &file, 1, 0, 0, &mut under, &mut open)?;
    let mut far = [0i32, 63000001, -63000000, 0];
    run(rt, &file, 1, 0, 0, &mut far, &mut open)
}

// Three points: a result beyond the range, above it and below it.
fn three(rt: &impl Print) -> io::Result<()> {
    let file = [
        1u8, 0, 0, 0, 3, 0, 0, 0, 0, 0, 0, 0, 0, 0, 0, 0, 24, 0, 0, 0, 24, 0, 0, 0,
    ];
    let mut strict = [0i32, 63000000, 2147483647, 0, 0, 2147483647, 0, 63000000, 0];
    let mut open = [0i32, 63000000, 2147483647, 0, 0, 2147483647, 0, 63000000, 0];
    run(rt, &file, 1, 2, 1000000, &mut strict, &mut open)?;
    let mut low = [
        0i32, 63000000, 2147483647, -63000000, 0, 2147483647, 0, 63000000, 0,
    ];
    let mut under = [
        0i32, 63000000, 2147483647, -63000000, 0, 2147483647, 0, 63000000, 0,
    ];
    run(rt, &file, 2, 1, -1000000, &mut low, &mut under)?;
    run(rt, &file, 2, 1, 0, &mut low, &mut under)
}

fn main(rt: HostRuntime) -> io::Result<()> {
    paper(&rt)?;
    two(&rt)?;
    three(&rt)
}
