// The calls, exported for C (include/post.h). Each is the function of the same name in `post`, with the same clauses.
ghost use Rattle.std.specs.Prelude.{◌≡◌, min};
ghost use Rattle.rules.specs.Plan.{version1};
ghost use Rattle.rules.specs.Calls.{Judged, Checked, Timed, Added};
ghost use Rattle.plan.specs.Layout.{plan_of};
ghost use Rattle.plan.specs.File.{file_answer, add_answer};
ghost use Rattle.chain.specs.Call.{Reasoned};
ghost use Rattle.reasons.specs.Notes.{columns};
ghost use Rattle.rests.specs.Rests.{rests_on, largest};
ghost use Rattle.writing.specs.PlanLists.{lists};
ghost use Rattle.writing.specs.Wrote.{Wrote};
ghost use Rattle.post.specs.Faces.{packed_of, Packed, PackedAdd};

// Sound.
#[unsafe(no_mangle)]
pub extern "C" fn post_sound(file: &[u8]) -> u64
    ensures { result ≡ packed_of (file_answer file.now) }
{
    post::post_sound(file)
}

// Check.
#[unsafe(no_mangle)]
pub extern "C" fn post_check(file: &[u8], strict: &[i32], open: &[i32]) -> u64
    ensures { Packed (Checked version1 (file_answer file.now) (plan_of file.now) strict.now «open».now) result }
{
    post::post_check(file, strict, open)
}

// Judge.
#[unsafe(no_mangle)]
pub extern "C" fn post_judge(file: &[u8], strict: &mut [i32], open: &mut [i32]) -> u64
    ensures { Packed (λ a. Judged version1 (file_answer file.now) (plan_of file.now) strict.old «open».old a strict.new «open».new) result }
{
    post::post_judge(file, strict, open)
}

// Earliest.
#[unsafe(no_mangle)]
pub extern "C" fn post_earliest(
    file: &[u8],
    strict: &mut [i32],
    open: &mut [i32],
    times: &mut [i32],
) -> u64
    ensures { Packed (λ a. Timed version1 (file_answer file.now) (plan_of file.now) strict.old «open».old times.old a strict.new «open».new times.new) result }
{
    post::post_earliest(file, strict, open, times)
}

// Add.
#[unsafe(no_mangle)]
pub extern "C" fn post_add(
    file: &[u8],
    x: u32,
    y: u32,
    w: i32,
    strict: &mut [i32],
    open: &mut [i32],
    scratch: &mut [i64],
) -> u64
    ensures { PackedAdd (Added version1 (add_answer file.now (record { from = x; to = y; weight = w })) (plan_of file.now) (record { from = x; to = y; weight = w }) strict.old «open».old scratch.old) result strict.new «open».new scratch.new }
{
    post::post_add(file, x, y, w, strict, open, scratch)
}

// Write. In C `short` and `long` are no names.
#[unsafe(no_mangle)]
pub extern "C" fn post_write(
    n: u32,
    from: &[u32],
    to: &[u32],
    weight: &[i32],
    act: &[u32],
    con: &[u32],
    shortest: &[u32],
    longest: &[u32],
    buffer: &mut [u8],
) -> u64
    ensures { Packed (λ a. Wrote (lists n from.now to.now weight.now act.now con.now shortest.now longest.now) buffer.old a buffer.new) result }
{
    post::post_write(n, from, to, weight, act, con, shortest, longest, buffer)
}

// Reasons.
#[unsafe(no_mangle)]
pub extern "C" fn post_reasons(
    file: &[u8],
    kinds: &mut [u32],
    froms: &mut [u32],
    tos: &mut [u32],
    weights: &mut [i64],
    firsts: &mut [u32],
    seconds: &mut [u32],
    work: &mut [i64],
) -> u64
    ensures { Packed (λ a. Reasoned (file_answer file.now) (plan_of file.now) (columns kinds.old froms.old tos.old weights.old firsts.old seconds.old) work.old a (columns kinds.new froms.new tos.new weights.new firsts.new seconds.new) work.new) result }
{
    post::post_reasons(file, kinds, froms, tos, weights, firsts, seconds, work)
}

// Rests: a number, no answer.
#[unsafe(no_mangle)]
pub extern "C" fn post_rests(kinds: &[u32], firsts: &[u32], seconds: &[u32], line: u32) -> u32
    ensures { result ≡ min (rests_on kinds.now firsts.now seconds.now line) largest }
{
    post::post_rests(kinds, firsts, seconds, line)
}
