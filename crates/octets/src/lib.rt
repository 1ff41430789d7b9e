// Bytes that a caller lends: writing into a memory, all of it where it lies inside, else nothing; the first bytes of a
// slice; numbers as bytes. Assumes nothing. It promises the whole memory as it is then (specs/Octets.antt).
#![tactic(auto)]

ghost use Rattle.std.specs.Prelude.{◌≡◌, ◌+◌, ◌<◌, ◌≤◌, ℕ, drop, length, set, slice_index, take};
ghost use Rattle.octets.specs.Octets.{little, field, inside, written};

// How many bytes the local array of a copy has room for: no frame has more.
const COPIED_MOST: usize = 9000;

// Writes src into memory from at on, and answers whether it did.
#[tactic(auto, unfolding(crate::specs::Octets::inside, crate::specs::Octets::written))]
pub fn write(memory: &mut [u8], at: usize, src: &[u8]) -> bool
    ensures value { result ≡ inside memory.old at (length src.now) }
    ensures memory_after { memory.new ≡ written memory.old at src.now }
{
    match at.checked_add(src.len()) {
        Some(end) if end <= memory.len() => {
            copy(&mut memory[at..end], src);
            true
        }
        _ => false,
    }
}

// dst becomes src, which is as long. Eight bytes and four, which many messages have, come first: where the compiler
// knows how many there are, it moves them at once.
fn copy(dst: &mut [u8], src: &[u8])
    requires { length src.now ≡ length dst.old }
    ensures { dst.new ≡ src.now }
{
    match src.len() {
        8 => copy_short(dst, src),
        4 => copy_short(dst, src),
        0..=COPIED_MOST => copy_short(dst, src),
        _ => dst.copy_from_slice(src),
    }
}

// The same for as much as a frame can carry. By way of the local array the compiler sees that what is read is not what
// is written, and makes one memmove of the two copies, and no array.
fn copy_short(dst: &mut [u8], src: &[u8])
    requires { (length src.now ≡ length dst.old) × (length src.now ≤ 9000) }
    ensures { dst.new ≡ src.now }
{
    let mut local = [0u8; 9000];
    let n = src.len();
    local[..n].copy_from_slice(src);
    dst.copy_from_slice(&local[..n]);
}

// Stores a byte, and nothing past the end.
pub fn keep(memory: &mut [u8], at: usize, b: u8)
    ensures { memory.new ≡ set memory.old at b }
{
    // get_mut says nothing of what the slice holds then.
    if at < memory.len() {
        memory[at] = b;
    }
}

// The first `len` bytes, or all where there are fewer.
pub fn front(s: &[u8], len: usize) -> &[u8]
    ensures { result.now ≡ take len s.now }
{
    s.get(..len).unwrap_or(s)
}

// A number as its four bytes, the lowest first.
#[tactic(auto, unfolding(crate::specs::Octets::little))]
pub fn little4(x: u32) -> [u8; 4]
    ensures { result ≡ little 4 x }
{
    x.to_le_bytes()
}

// ---- numbers at an offset, the lowest byte first

// The bytes from an offset on.
#[inline(always)]
fn behind(bytes: &[u8], at: usize) -> &[u8]
    ensures { result.now ≡ drop at bytes.now }
{
    bytes.get(at..).unwrap_or(&[])
}

// The first N bytes; zeros where bytes are missing.
#[cold]
#[inline(never)]
fn padded<const N: usize>(bytes: &[u8]) -> [u8; N]
    requires { length bytes.now < N }
    ensures { (i : ℕ) → i < N → slice_index result i ≡ slice_index bytes.now i }
{
    let mut all = [0; N];
    all[..bytes.len()].copy_from_slice(bytes);
    all
}

// The N bytes from an offset on. Where all of them are there, as they are of a frame that is not too short, they are
// read at once; where some are missing a call puts them together, so that the compiler makes no array of those.
#[inline(always)]
fn bytes_at<const N: usize>(bytes: &[u8], at: usize) -> [u8; N]
    ensures { (i : ℕ) → i < N → slice_index result i ≡ slice_index bytes.now (at + i) }
{
    let rest = behind(bytes, at);
    match rest.first_chunk() {
        Some(all) => *all,
        None => padded(rest),
    }
}

// The number in the two bytes at an offset. Bytes past the end count as 0.
#[inline(always)]
pub fn u16_at(bytes: &[u8], at: usize) -> u16
    ensures { result ≡ field bytes.now at 2 }
{
    u16::from_le_bytes(bytes_at(bytes, at))
}

// The number in the four bytes at an offset. Bytes past the end count as 0.
#[inline(always)]
pub fn u32_at(bytes: &[u8], at: usize) -> u32
    ensures { result ≡ field bytes.now at 4 }
{
    u32::from_le_bytes(bytes_at(bytes, at))
}
