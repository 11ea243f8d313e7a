// Reads damaged and sound plan files from standard input, and prints of each a line: code and place of the file, then code and
// place with the limit that is handed to Add. Each file stands behind sixteen bytes, its length and that limit's X, Y and w;
// the repository's tools/damaged_files.py makes the input and what is to be printed.
#![tactic(auto)]

ghost use Rattle.std.specs.Prelude.{length};
ghost use Rattle.std.specs.Iterator.{at_most};

use console::{Numbers, read_full};
use fields::{signed_at, unsigned_at};
use std::io;

// A file, and the limit x>y w that is handed to Add.
struct Entry<'a> {
    file: &'a [u8],
    x: u32,
    y: u32,
    w: i32,
}

// The entries of an input, one behind the other; what does not fit ends it.
#[derive(Drop)]
struct Entries<'a>(&'a [u8]);

impl<'a> Iterator for Entries<'a> {
    type Item = Entry<'a>;

    ghost remaining = { λ s. at_most (length s.0.now) };

    fn next(&mut self) -> Option<Entry<'a>> {
        let (head, behind) = self.0.split_at_checked(16)?;
        let (file, rest) = behind.split_at_checked(unsigned_at(head, 0) as usize)?;
        self.0 = rest;
        Some(Entry {
            file,
            x: unsigned_at(head, 4),
            y: unsigned_at(head, 8),
            w: signed_at(head, 12),
        })
    }
}

// Prints a line for each file.
fn report(rt: &impl Print, all: &[u8]) -> io::Result<()> {
    for Entry { file, x, y, w } in Entries(all) {
        let alone = Numbers(plan::sound(file));
        let added = Numbers(plan::sound_with(file, x, y, w));
        println!(rt; "{alone} {added}")?;
    }
    Ok(())
}

fn main(rt: HostRuntime) -> io::Result<()> {
    let mut space = [0u8; 262144];
    let mut input = rt.reader();
    let got = read_full(&mut input, &mut space)?;
    report(&rt, &space[..got])
}
