// A field of a lent file: a 32-bit number, its lowest byte first, at any position; read, and written.
#![tactic(auto)]

ghost use Rattle.std.specs.Prelude.{◌≡◌, ◌+◌, ◌≤◌, length};
ghost use Rattle.std.proofs.lemmas.List.Edits.{sets};
ghost use Rattle.fields.specs.Bytes.{byte_at, word_at, signed_at, word_bytes, bits_of};

// The byte i places after a position; past the end it counts as 0.
fn byte_at(file: &[u8], at: usize, i: usize) -> u8
    ensures { result ≡ byte_at file.now (at + i) }
{
    let size = file.len();
    if size <= at {
        return 0;
    }
    if size - at <= i {
        return 0;
    }
    file[at + i]
}

// The unsigned field at a position; a byte past the file's end counts as 0.
// A field that lies whole in the file is read behind one comparison with the file's length. The test before it, that `at + 4` does not wrap, is of the position
// alone: where that is made of 32-bit numbers the compiler leaves it out. By `get` and `first_chunk` it compared twice in a loop.
#[tactic(auto, unfolding(crate::specs::Bytes::word_at))]
pub fn unsigned_at(file: &[u8], at: usize) -> u32
    ensures { result ≡ word_at file.now at }
{
    if at <= usize::MAX - 4 {
        if at + 4 <= file.len() {
            return u32::from_le_bytes([file[at], file[at + 1], file[at + 2], file[at + 3]]);
        }
    }
    u32::from_le_bytes([
        byte_at(file, at, 0),
        byte_at(file, at, 1),
        byte_at(file, at, 2),
        byte_at(file, at, 3),
    ])
}

// The signed field at a position.
#[tactic(auto, unfolding(crate::specs::Bytes::signed_at, crate::specs::Bytes::signed_of))]
pub fn signed_at(file: &[u8], at: usize) -> i32
    ensures { result ≡ signed_at file.now at }
{
    unsigned_at(file, at).cast_signed()
}

// The 32 bits that stand for a signed number.
#[tactic(auto, unfolding(crate::specs::Bytes::bits_of))]
pub fn bits(w: i32) -> u32
    ensures { result ≡ bits_of w }
{
    w.cast_unsigned()
}

// A field written at a position from which on the buffer has room for its four bytes.
#[tactic(auto, unfolding(crate::specs::Bytes::word_bytes))]
pub fn put(buffer: &mut [u8], at: usize, w: u32)
    requires { at + 4 ≤ length buffer.old }
    ensures { buffer.new ≡ sets buffer.old at (word_bytes w) }
{
    buffer[at..at + 4].copy_from_slice(&w.to_le_bytes());
}
