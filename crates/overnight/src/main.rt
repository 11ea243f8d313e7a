// A night at a post: a plan is stored in the afternoon and judged at night, and flash can change in between. Reads entries from standard input and
// prints of each a line: its name, Sound's code and place for the file as it was stored, Judge's for what flash holds at night, and what became
// of the tables, which held 7 in every cell. An entry is twelve bytes, the lengths of a name, of the file and of what flash holds at night, then
// those three; the repository's tools/changed_files.py makes the input and what is to be printed.
#![tactic(auto)]

ghost use Rattle.std.specs.Prelude.{◌≤◌, length};
ghost use Rattle.std.specs.Iterator.{at_most};

use console::{Numbers, read_full};
use fields::unsigned_at;
use std::io;

// A night's name, the file as it is stored, and what flash holds at night. Flash has room for more than the largest file, 12,824 bytes.
struct Entry<'a> {
    name: &'a [u8],
    stored: &'a [u8],
    held: &'a [u8],
    ghost stored_fits: { length stored.now ≤ 16384 },
    ghost held_fits: { length held.now ≤ 16384 },
}

// The entries of an input, one behind the other; what does not fit ends it.
#[derive(Drop)]
struct Entries<'a>(&'a [u8]);

impl<'a> Iterator for Entries<'a> {
    type Item = Entry<'a>;

    ghost remaining = { λ s. at_most (length s.0.now) };

    fn next(&mut self) -> Option<Entry<'a>> {
        let (head, behind) = self.0.split_at_checked(12)?;
        let (name, behind) = behind.split_at_checked(unsigned_at(head, 0) as usize)?;
        let (stored, behind) = behind.split_at_checked(unsigned_at(head, 4) as usize)?;
        let (held, rest) = behind.split_at_checked(unsigned_at(head, 8) as usize)?;
        if 16384 < stored.len() || 16384 < held.len() {
            return None;
        }
        self.0 = rest;
        Some(Entry { name, stored, held })
    }
}

// Puts bytes where the flash begins, over what is there. What lies behind them stays.
fn store(bytes: &[u8], flash: &mut [u8])
    requires { length bytes.now ≤ length flash.old }
{
    flash[..bytes.len()].copy_from_slice(bytes);
}

// How many cells a table of a file's points has; 0 where the file names more points than there may be.
fn room(file: &[u8]) -> usize {
    let n = unsigned_at(file, 4) as usize;
    if n <= 64 { n * n } else { 0 }
}

// Whether every cell holds 7 still.
fn stays(cells: &[i32]) -> bool {
    cells.iter().all(|cell| *cell == 7)
}

// Whether the first so many cells hold the mark, and every other one 7 still.
fn marked(cells: &[i32], count: usize) -> bool {
    match cells.split_at_checked(count) {
        Some((front, behind)) => front.iter().all(|cell| *cell == i32::MAX) && stays(behind),
        None => false,
    }
}

// What became of the tables of a plan with so many cells in each. The cells themselves are looked at, and no code.
fn became(strict: &[i32], open: &[i32], count: usize) -> &'static str {
    if stays(strict) && stays(open) {
        "stay"
    } else if marked(strict, count) && marked(open, count) {
        "marked"
    } else {
        "filled"
    }
}

// Prints what the two calls answer: the first of the file as it is stored, the second, whatever the first one said, of what the same flash holds
// at night. Where less is held than was stored, the old bytes still lie behind it, and Judge is not lent them.
fn line(rt: &impl Print, stored: &[u8], held: &[u8]) -> io::Result<()>
    requires { (length stored.now ≤ 16384) × (length held.now ≤ 16384) }
{
    let mut flash = [0u8; 16384];
    let mut strict = [7i32; 4096];
    let mut open = [7i32; 4096];
    store(stored, &mut flash);
    let sound = Numbers(post::sound(&flash[..stored.len()]));
    store(held, &mut flash);
    let file = &flash[..held.len()];
    let judged = Numbers(post::judge(file, &mut strict, &mut open));
    let tables = became(&strict, &open, room(file));
    println!(rt; ": sound {sound}, judge {judged}, tables {tables}")
}

// Prints a line for each entry.
fn report(rt: &impl Print, all: &[u8]) -> io::Result<()> {
    for Entry { name, stored, held } in Entries(all) {
        rt.write_all(name)?;
        line(rt, stored, held)?;
    }
    Ok(())
}

fn main(rt: HostRuntime) -> io::Result<()> {
    let mut space = [0u8; 262144];
    let mut input = rt.reader();
    let got = read_full(&mut input, &mut space)?;
    report(&rt, &space[..got])
}
