// The plan file: from lent bytes to the paper's plan, with nothing copied. What reads a file is total: it takes any bytes. Only the answers to
// records ask for something: indices in range, so that a record's offset fits into a place.
// What each answers is said by the definitions of specs/, which follow the paper.
#![tactic(auto)]

mod faults;
mod fits;
mod record;
mod scan;
mod sources;

ghost use Rattle.std.specs.Prelude.{◌≡◌};
ghost use Rattle.rules.specs.Plan.{version1};
ghost use Rattle.answers.specs.Order.{◌then◌};
ghost use Rattle.plan.specs.File.{laid_out, form_answer, counts_answer, file_front, file_answer, add_answer};

pub use faults::{limit_answer, link_answer};
use fits::{counts_fit, laid_out, points_fit};
pub use record::{head, limit_at, link_at};
use rules::{Answer, Refusal};
pub use scan::{limits, links};
use sources::FileRecords;
pub use sources::PlanRecords;

// A limit: point `to` comes at most `weight` after point `from`.
#[derive(Clone, Copy)]
pub struct Limit {
    pub from: u32,
    pub to: u32,
    pub weight: i32,
}

// A link: its activation, its contingent point, its shortest and its longest duration.
#[derive(Clone, Copy)]
pub struct Link {
    pub act: u32,
    pub con: u32,
    pub short: u32,
    pub long: u32,
}

// The header's fields, in the file's order.
#[derive(Clone, Copy)]
pub struct Header {
    pub version: u32,
    pub points: u32,
    pub limits: u32,
    pub links: u32,
    pub limits_at: u32,
    pub links_at: u32,
}

// Codes 3, 4 and 5, of n points, m limits and k links; `laid` says whether the rest is as laid down.
pub fn counts_answer(n: u32, m: usize, k: usize, laid: bool) -> Answer
    ensures { result ≡ counts_answer version1 n m k laid }
{
    if !points_fit(n) {
        return Err(Refusal::BadPoints);
    }
    if !counts_fit(m, k) {
        return Err(Refusal::BadCounts);
    }
    if !laid {
        return Err(Refusal::BadLayout);
    }
    Ok(())
}

// Codes 1 to 5, of a file of so many bytes with such a header.
fn head_answer(size: usize, h: Header) -> Answer
    ensures { result ≡ (form_answer size h then counts_answer version1 h.points h.limits h.links (laid_out size h)) }
{
    if size < 24 {
        return Err(Refusal::FewBytes);
    }
    if h.version != 1 {
        return Err(Refusal::BadVersion);
    }
    let laid = laid_out(size, h);
    counts_answer(h.points, h.limits as usize, h.links as usize, laid)
}

// Codes 1 to 6: the header and the limits.
fn front(file: &[u8]) -> Answer
    ensures { result ≡ file_front file.now }
{
    let h = head(file);
    head_answer(file.len(), h)?;
    let m = h.limits;
    limits(&FileRecords { file, m }, h.points, m)
}

// Sound: whether any bytes are a plan file, codes 1 to 8 in the paper's order. `post` hands it on as a call of the library.
pub fn sound(file: &[u8]) -> Answer
    ensures { result ≡ file_answer file.now }
{
    front(file)?;
    let h = head(file);
    let m = h.limits;
    links(&FileRecords { file, m }, h.points, m, h.links)
}

// The same with the limit that is handed to Add, which is tested between the file's limits and its links.
pub fn sound_with(file: &[u8], x: u32, y: u32, w: i32) -> Answer
    ensures { result ≡ add_answer file.now (record { from = x; to = y; weight = w }) }
{
    front(file)?;
    let h = head(file);
    let added = Limit {
        from: x,
        to: y,
        weight: w,
    };
    limit_answer(h.points, h.limits, added)?;
    let m = h.limits;
    links(&FileRecords { file, m }, h.points, m, h.links)
}
