// The rule paper. This crate has no functions: specs/ holds the paper's definitions, proofs/ the theorems on them, and
// here stand the types that code and definitions share.
#![tactic(auto)]

// Why a call refuses: a case for each code of the paper's table "Numbers returned" but 0, with the place where the paper names one.
// The paper's numbers are code_of and place_of of specs/Answers.antt.
#[derive(Clone, Copy, Debug, PartialEq, Eq)]
pub enum Refusal {
    // 1: fewer than 24 bytes
    FewBytes,
    // 2: version not 1
    BadVersion,
    // 3: n out of range
    BadPoints,
    // 4: m or k out of range
    BadCounts,
    // 5: an offset or the file's length is not as laid down
    BadLayout,
    // 6: a limit out of range; where in the file its field at fault begins
    BadLimit(u32),
    // 7: a link out of range; where its field at fault begins
    BadLink(u32),
    // 8: a link repeats an earlier contingent point; where its own begins
    RepeatedLink(u32),
    // 9: a lent slice is shorter than needed
    ShortRoom,
    // 10: Earliest: the plan has links
    HasLinks,
    // 11: Judge, Earliest, Add: uncontrollable
    NotControllable,
    // 11 from Reasons: uncontrollable; how many lines the list has
    ReasonsListed(u32),
    // 12: tables not closed, or a cell of Add's result out of range
    NotClosed,
}

// What a call answers: `Ok` with 0, done or accepted; else why it refuses.
pub type Answer = Result<(), Refusal>;

// Which of two tables: row access is given "a choice, strict or open only".
#[derive(Clone, Copy, Debug, PartialEq, Eq)]
pub enum Side {
    Strict,
    Open,
}
