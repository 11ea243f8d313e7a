// The six lent slices of a reason list.
ghost use Rattle.std.specs.Prelude.{◌≡◌, ◌≤◌, length};
ghost use Rattle.reasons.specs.Room.{Roomy, Roomy-prop};
ghost use Rattle.reasons.specs.Notes.{columns};

use offers::Draft;

// A slice for each part of a line, and for how many lines there is room: no more than fit into each, and than a place can say.
#[derive(Drop)]
pub struct Lists<'a> {
    pub kinds: &'a mut [u32],
    pub froms: &'a mut [u32],
    pub tos: &'a mut [u32],
    pub weights: &'a mut [i64],
    pub firsts: &'a mut [u32],
    pub seconds: &'a mut [u32],
    pub room: u64,
    ghost roomy: { Roomy room (columns kinds.now froms.now tos.now weights.now firsts.now seconds.now) } by { Roomy-prop room (columns kinds.now froms.now tos.now weights.now firsts.now seconds.now) },
}

impl Lists<'_> {
    ghost use Rattle.offers.specs.Drafts.{made_of};
    ghost use Rattle.chain.specs.Call.{room_of};
    ghost use Rattle.reasons.specs.Notes.{set_line};
    ghost use Rattle.reasons.specs.Lent.{lists_of, SameLists};

    // For how many lines there could be room: for as many as the shortest slice has, if a place can say them.
    pub fn most(&self) -> u64
        ensures { result ≡ room_of (lists_of self.now) }
    {
        let most = self.firsts.len().min(self.seconds.len());
        let most = self.tos.len().min(self.weights.len().min(most));
        let most = self.kinds.len().min(self.froms.len().min(most));
        most.min(4294967295) as u64
    }

    // Line `at`, if there is room for it. A reference is the number of an earlier line or an index in the file, so it fits.
    pub fn set_line(&mut self, at: u64, d: Draft)
        ensures same { SameLists self.old self.new × (self.new.room ≡ self.old.room) }
        ensures lists { lists_of self.new ≡ set_line self.old.room at (made_of d) (lists_of self.old) }
    {
        if at >= self.room {
            return;
        }
        let i = at as usize;
        self.kinds[i] = d.kind.number();
        self.froms[i] = d.from;
        self.tos[i] = d.to;
        self.weights[i] = d.weight;
        self.firsts[i] = (d.first % 4294967296) as u32;
        self.seconds[i] = (d.second % 4294967296) as u32;
    }
}
