// Storing the pair that lent words hold, as text in a buffer that the caller lends. Assumes nothing of the words or of
// the buffer. It promises the answer and every byte of the buffer (host_stored/specs/Form.antt).
ghost use Rattle.std.specs.Prelude.{◌≡◌, [], ◌∷◌, ◌++◌, ◌+◌, ◌*◌, ◌≤◌, ◌<◌, length, IfOk};
ghost use Rattle.std.proofs.lemmas.List.Edits.{sets};
ghost use Rattle.refusal.specs.Reason.{refusal_number};
ghost use Rattle.hexadecimal.specs.Fields.{digit_of, hex, laid, lines_of};
ghost use Rattle.host_stored.specs.Form.{
  head_widths,
  open_widths,
  first_line,
  open_line,
  opens_of,
  stored_of,
  buffer_of,
};
ghost use Rattle.host_words.specs.Words.{pair_of};
ghost use Rattle.host_store.specs.Lines.{lines_at};

use host::Open;
use host_stored::{HEAD, OPEN, VERSION};
use host_words::describe;
use refusal::Reason;
use seq::TransNo;

fn digit(d: u8) -> u8
    requires { d < 16 }
    ensures { result ≡ digit_of d }
{
    if d < 10 { b'0' + d } else { b'a' - 10 + d }
}

// Puts bytes as a line, and answers the index behind it.
fn put_line(out: &mut [u8], at: usize, bytes: &[u8]) -> usize
    requires { at + (2 * length bytes.now + 1) ≤ length out.old }
    ensures value { result ≡ at + (2 * length bytes.now + 1) }
    ensures out_after { out.new ≡ sets out.old at (hex bytes.now ++ (10 ∷ [])) }
{
    let mut end = at;
    for b in bytes {
        out[end] = digit(b / 16);
        out[end + 1] = digit(b % 16);
        end += 2;
    }
    out[end] = b'\n';
    end + 1
}

fn head_bytes(words: &[u64]) -> [u8; 23]
    ensures { result ≡ laid head_widths (first_line 1 (pair_of words.now)) }
{
    let mut bytes = [VERSION; 23];
    bytes[1..3].copy_from_slice(&host_words::own(words).to_le_bytes());
    bytes[3..5].copy_from_slice(&host_words::peer(words).to_le_bytes());
    bytes[5..7].copy_from_slice(&host_words::next(words).0.to_le_bytes());
    bytes[7..15].copy_from_slice(&host_words::marks(words).to_le_bytes());
    bytes[15..19].copy_from_slice(&host_words::lowest(words).0.to_le_bytes());
    bytes[19..].copy_from_slice(&host_words::closed(words).to_le_bytes());
    bytes
}

fn open_bytes(number: TransNo, o: Open) -> [u8; 16]
    ensures { result ≡ laid open_widths (open_line number.0 o) }
{
    let mut bytes = [0u8; 16];
    bytes[..4].copy_from_slice(&number.0.to_le_bytes());
    bytes[4..8].copy_from_slice(&o.address.to_le_bytes());
    bytes[8..12].copy_from_slice(&o.value.to_le_bytes());
    bytes[12..14].copy_from_slice(&o.count.to_le_bytes());
    bytes[14..].copy_from_slice(&o.received.to_le_bytes());
    bytes
}

// Puts the line of the transaction j past the lowest one where it is open, and answers where the next one goes.
fn put_open(out: &mut [u8], at: usize, words: &[u64], j: u32) -> usize
    requires { at + 33 * length (lines_at (pair_of words.now) j) ≤ length out.old }
    ensures value { result ≡ at + 33 * length (lines_at (pair_of words.now) j) }
    ensures out_after { out.new
        ≡ sets out.old at (lines_of open_widths (lines_at (pair_of words.now) j)) }
{
    let o = describe::entry_at(words, j);
    if o.received == 0 {
        return at;
    }
    put_line(out, at, &open_bytes(describe::number_at(words, j), o))
}

fn put_opens(out: &mut [u8], at: usize, words: &[u64])
    requires { at + 33 * length (opens_of (pair_of words.now)) ≤ length out.old }
    ensures { out.new
        ≡ sets out.old at (lines_of open_widths (opens_of (pair_of words.now))) }
{
    let mut end = at;
    for j in 0..32 {
        end = put_open(out, end, words, j);
    }
}

// Stores the pair, and gives the text's length: 13 where an ID is 0, 19 where the buffer is shorter than the text.
pub fn store(words: &[u64], buffer: &mut [u8]) -> Result<usize, Reason>
    ensures refused { refusal_number result ≡ (stored_of (pair_of words.now) buffer.old).refusal }
    ensures stored { IfOk result (λ n. n ≡ (stored_of (pair_of words.now) buffer.old).length) }
    ensures buffer_after { buffer.new ≡ buffer_of (pair_of words.now) buffer.old }
{
    if host_words::own(words) == 0 || host_words::peer(words) == 0 {
        return Err(Reason::IdZero);
    }
    let size = HEAD + OPEN * describe::count_open(words) as usize;
    if buffer.len() < size {
        return Err(Reason::BufferShort);
    }
    let end = put_line(buffer, 0, &head_bytes(words));
    put_opens(buffer, end, words);
    Ok(size)
}
