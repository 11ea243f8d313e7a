// Reads plan files with two tables each from standard input, and prints of each a line: Sound's code and place, and then Check's. An entry is twelve
// bytes, the file's length and how many cells the strict and the open table have, then the file, then the cells of both; the repository's
// tools/tried_tables.py makes the input and what is to be printed.
#![tactic(auto)]

ghost use Rattle.std.specs.Prelude.{◌≤◌, length};
ghost use Rattle.std.specs.Iterator.{at_most};

use console::{Numbers, read_full};
use fields::{signed_at, unsigned_at};
use std::io;

// A file, and the bytes of the cells of two tables, of no more than 4,096 cells each.
struct Entry<'a> {
    file: &'a [u8],
    strict: &'a [u8],
    open: &'a [u8],
    ghost strict_fits: { length strict.now ≤ 16384 },
    ghost open_fits: { length «open».now ≤ 16384 },
}

// The entries of an input, one behind the other; what does not fit ends it.
#[derive(Drop)]
struct Entries<'a>(&'a [u8]);

impl<'a> Iterator for Entries<'a> {
    type Item = Entry<'a>;

    ghost remaining = { λ s. at_most (length s.0.now) };

    fn next(&mut self) -> Option<Entry<'a>> {
        let (head, behind) = self.0.split_at_checked(12)?;
        let first = unsigned_at(head, 4) as usize;
        let second = unsigned_at(head, 8) as usize;
        if 4096 < first || 4096 < second {
            return None;
        }
        let (file, behind) = behind.split_at_checked(unsigned_at(head, 0) as usize)?;
        let (strict, behind) = behind.split_at_checked(4 * first)?;
        let (open, rest) = behind.split_at_checked(4 * second)?;
        self.0 = rest;
        Some(Entry { file, strict, open })
    }
}

// Puts cells into the front of a table.
fn take(cells: &[u8], t: &mut [i32]) {
    for (cell, bytes) in t.iter_mut().zip(cells.chunks_exact(4)) {
        *cell = signed_at(bytes, 0);
    }
}

// Prints a line for each entry.
fn report(rt: &impl Print, all: &[u8]) -> io::Result<()> {
    for Entry { file, strict, open } in Entries(all) {
        let mut first = [0i32; 4096];
        let mut second = [0i32; 4096];
        take(strict, &mut first);
        take(open, &mut second);
        let sound = Numbers(post::sound(file));
        let checked = Numbers(post::check(
            file,
            &first[..strict.len() / 4],
            &second[..open.len() / 4],
        ));
        println!(rt; "{sound} {checked}")?;
    }
    Ok(())
}

fn main(rt: HostRuntime) -> io::Result<()> {
    let mut space = [0u8; 262144];
    let mut input = rt.reader();
    let got = read_full(&mut input, &mut space)?;
    report(&rt, &space[..got])
}
