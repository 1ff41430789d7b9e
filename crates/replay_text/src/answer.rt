// Answer lines: a letter, numbers in decimal with a space before each, and a newline, put into a lent buffer. Assumes
// nothing. It promises the whole line where that fits, and otherwise that nothing is written: specs/AnswerLine.antt.
ghost use Rattle.std.specs.Prelude.{◌≡◌, ◌+◌, ◌≤◌, ◌∷◌, length, take};
ghost use Rattle.std.proofs.lemmas.List.Edits.{sets};
ghost use Rattle.replay_text.specs.Decimal.{decimal};
ghost use Rattle.replay_text.specs.AnswerLine.{line_text, with_line, line_end};

// Digits of the greatest 64-bit number.
const DIGITS_MOST: usize = 20;

// Numbers that a line can have.
const NUMBERS_MOST: usize = 8;

// Bytes of the longest line: a letter, that many numbers of a space and DIGITS_MOST digits each, and a newline.
pub const LINE_MOST: usize = 170;

// Puts a space and a number's digits into text from at on, and answers the index behind.
fn put_number(text: &mut [u8; LINE_MOST], at: usize, x: u64) -> usize
    requires { at + 21 ≤ 170 }
    ensures value { (result ≡ at + length (32 ∷ decimal x)) × (result ≤ at + 21) }
    ensures text_after { text.new ≡ sets text.old at (32 ∷ decimal x) }
{
    let mut digits = [0u8; DIGITS_MOST];
    let n = io::decimal(x, &mut digits);
    text[at] = b' ';
    octets::write(text, at + 1, &digits[..n]);
    at + 1 + n
}

// Puts the text of a line at the start of text, and answers its length.
fn put_text(text: &mut [u8; LINE_MOST], letter: u8, numbers: &[u64]) -> usize
    requires { length numbers.now ≤ 8 }
    ensures upper_bound { (result ≤ 170) × (result ≡ length (line_text letter numbers.now)) }
    ensures text_after { take result text.new ≡ line_text letter numbers.now }
{
    text[0] = letter;
    let mut n = 1;
    for x in numbers {
        n = put_number(text, n, *x);
    }
    text[n] = b'\n';
    n + 1
}

// Writes an answer line into out from at on, and answers the index behind it. Where it does not fit, or has more than 8
// numbers, nothing is written and the answer is at.
pub fn put_line(out: &mut [u8], at: usize, letter: u8, numbers: &[u64]) -> usize
    ensures value { result ≡ line_end out.old at letter numbers.now }
    ensures out_after { out.new ≡ with_line out.old at letter numbers.now }
{
    if NUMBERS_MOST < numbers.len() {
        return at;
    }
    let mut text = [0u8; LINE_MOST];
    let n = put_text(&mut text, letter, numbers);
    if octets::write(out, at, &text[..n]) {
        return at + n;
    }
    at
}
