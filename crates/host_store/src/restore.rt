// Reading a host's pair back from a text that the caller lends, into 67 words that it lends too. Assumes nothing: any
// bytes get an answer, and words of another number stay as they are. It promises the answer, and the pair that the
// words hold then (specs/Restoring.antt).
ghost use Rattle.std.specs.Prelude.{◌≡◌, [], ◌+◌, ◌*◌, ◌^◌, ◌≤◌, ◌<◌, length, drop, unwrap_or, ok_or, IfSome};
ghost use Rattle.refusal.specs.declared.Reason.TheVariants.{BadText};
ghost use Rattle.refusal.specs.Reason.{refusal_number};
ghost use Rattle.octets.specs.Octets.{field};
ghost use Rattle.hexadecimal.specs.Fields.{value_of, unhex, numbers_from, read_line, read_all};
ghost use Rattle.host_words.specs.Opening.{opening};
ghost use Rattle.host_words.specs.Words.{head_part, joined};
ghost use Rattle.host_stored.specs.Form.{head_widths, open_widths, open_in, pair_in, head_fine, open_fine, read_text};
ghost use Rattle.host_store.specs.Steps.{bytes_in, line_of, line_in, table_of, lines_in};
ghost use Rattle.host_store.specs.Restoring.{Restores};

use bitmap::Bitmap;
use host::{Open, Pair};
use host_stored::{HEAD, OPEN, VERSION};
use host_words::{Head, opening};
use refusal::Reason;
use seq::{FrameNo, Serial, TransNo};

// An open transaction's line: its number, and its entry of the table.
#[derive(Clone, Copy, Debug, PartialEq, Eq, Hash)]
pub struct OpenLine {
    pub number: TransNo,
    pub entry: Open,
}

// ---- characters

// The value of a lower-case digit.
fn digit_value(c: u8) -> Option<u8>
    ensures value { unwrap_or result 16 ≡ value_of c }
    ensures digit { IfSome result (λ d. d < 16) }
{
    match c {
        b'0'..=b'9' => Some(c - b'0'),
        b'a'..=b'f' => Some(c - b'a' + 10),
        _ => None,
    }
}

// Reads a line of N bytes, if there is one.
fn read_bytes<const N: usize>(text: &[u8], at: usize) -> Option<[u8; N]>
    requires { at + (2 * N + 1) ≤ length text.now }
    ensures { unhex N (drop at text.now) ≡ bytes_in result }
{
    let mut bytes = [0u8; N];
    let mut from = at;
    for byte in &mut bytes {
        let high = digit_value(text[from]);
        let low = digit_value(text[from + 1]);
        *byte = high? * 16 + low?;
        from += 2;
    }
    if text[from] == b'\n' {
        Some(bytes)
    } else {
        None
    }
}

// ---- numbers

// The number in up to eight bytes.
fn number_in(bytes: &[u8], at: usize, size: usize) -> u64
    requires { (size ≤ 8) × (at + size ≤ length bytes.now) }
    ensures { (result ≡ field bytes.now at size) × (result < 256 ^ size) }
{
    let mut x: u64 = 0;
    for i in (0..size).rev() {
        x = x * 256 + bytes[at + i] as u64;
    }
    x
}

fn head_in(bytes: &[u8; 23]) -> Head
    ensures { result ≡ head_part (pair_in (numbers_from 0 head_widths bytes.now) []) }
{
    Head {
        own: octets::u16_at(bytes, 1),
        peer: octets::u16_at(bytes, 3),
        next: FrameNo(octets::u16_at(bytes, 5)),
        marks: number_in(bytes, 7, 8),
        lowest: TransNo(octets::u32_at(bytes, 15)),
        closed: octets::u32_at(bytes, 19),
    }
}

fn open_in(bytes: &[u8; 16]) -> Open
    ensures { result ≡ open_in (numbers_from 0 open_widths bytes.now) }
{
    Open {
        address: octets::u32_at(bytes, 4),
        value: octets::u32_at(bytes, 8),
        count: octets::u16_at(bytes, 12),
        received: octets::u16_at(bytes, 14),
    }
}

// ---- the conditions

#[tactic(auto, unfolding(host_stored::specs::Form::head_fine))]
fn is_head_fine(h: Head) -> bool
    ensures { result ≡ head_fine (joined h []) }
{
    h.own != 0 && h.peer != 0 && !h.marks.is_marked(0) && !h.closed.is_marked(0)
}

#[tactic(auto, unfolding(host_stored::specs::Form::open_fine))]
fn is_open_fine(lowest: TransNo, closed: u32, least: u32, number: TransNo, o: Open) -> bool
    ensures { result ≡ open_fine lowest.0 closed least number.0 o }
{
    let d = number.distance(lowest);
    0 < o.received && o.received < o.count && d < 32 && !closed.is_marked(d) && least <= d
}

// ---- open transactions

// Reads an open transaction's line, if there is one that is fine.
fn read_open(text: &[u8], at: usize, lowest: TransNo, closed: u32, least: u32) -> Option<OpenLine>
    requires { at + 33 ≤ length text.now }
    ensures { line_in result ≡ line_of lowest.0 closed least (read_line open_widths (drop at text.now)) }
{
    let bytes = read_bytes::<16>(text, at)?;
    let number = TransNo(octets::u32_at(&bytes, 0));
    let entry = open_in(&bytes);
    if is_open_fine(lowest, closed, least, number, entry) {
        Some(OpenLine { number, entry })
    } else {
        None
    }
}

// The table that the lines of all open transactions make, those behind the first line; none where they are not fine.
fn read_opens(text: &[u8], lowest: TransNo, closed: u32) -> Option<[Open; 32]>
    requires { 47 ≤ length text.now }
    ensures { lines_in result ≡ table_of lowest.0 closed (read_all open_widths (drop 47 text.now)) }
{
    if (text.len() - HEAD) % OPEN != 0 {
        return None;
    }
    let mut table = [host::FREE; 32];
    let mut least: u32 = 0;
    for at in (HEAD..text.len()).step_by(OPEN) {
        let line = read_open(text, at, lowest, closed, least)?;
        table[(line.number.0 % 32) as usize] = line.entry;
        least = line.number.distance(lowest) + 1;
    }
    Some(table)
}

// ---- all of it

// The pair that a text is of; none for a text that no pair is stored as.
fn read(text: &[u8]) -> Option<Pair>
    ensures { opening (ok_or result BadText) ≡ read_text text.now }
{
    if text.len() < HEAD {
        return None;
    }
    let bytes = read_bytes::<23>(text, 0)?;
    if bytes[0] != VERSION {
        return None;
    }
    let head = head_in(&bytes);
    if !is_head_fine(head) {
        return None;
    }
    let table = read_opens(text, head.lowest, head.closed)?;
    Some(Pair {
        own: head.own,
        peer: head.peer,
        next: head.next,
        marks: head.marks,
        lowest: head.lowest,
        closed: head.closed,
        table,
    })
}

// Makes 67 words hold the pair that a text is of: refusal 15 where no pair has that text, and then they hold a fresh
// pair with both IDs 0. Words of another number stay as they are.
pub fn restore(words: &mut [u64], text: &[u8]) -> Result<(), Reason>
    ensures { Restores words.old text.now words.new (refusal_number result) }
{
    opening::put_opening(words, read(text).ok_or(Reason::BadText))
}
