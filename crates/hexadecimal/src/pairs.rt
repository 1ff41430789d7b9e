// The pairs of digits at the front of a piece of a line, with their bytes put into a lent frame. Assumes nothing: any
// characters and any lengths get an answer. It promises the line, the index and every byte of the frame as
// specs/Pairs.antt says; proofs/pairs/Laws.antt shows that this is a part of the walk from character to character.
ghost use Rattle.std.specs.Prelude.{◌≡◌};
ghost use Rattle.hexadecimal.specs.Pairs.{pairs_most, front_of};

use crate::line;
use crate::line::{COUNTED, Line, Taken};

// How many pairs of digits can be taken: each byte is kept, a frame of size bytes has room for it, and the piece has
// two characters for it, from an index to its end.
#[tactic(auto, unfolding(crate::specs::Pairs::pairs_most))]
fn pairs_most(len: usize, size: usize, from: usize, end: usize) -> usize
    ensures { result ≡ pairs_most len size from end }
{
    let kept = COUNTED.min(size).saturating_sub(len);
    kept.min(end.saturating_sub(from) / 2)
}

// Takes in pairs of digits, a byte each, for as long as there are any that are kept, and leaves the rest to the caller.
// Most of a replay's time goes here: a turn tests no index, and looks both digits up before it tests either, which the
// compiler makes into one jump. Indices are counted, since iter_mut says nothing of what the frame holds then.
pub(crate) fn take_pairs(line: Line, frame: &mut [u8], piece: &[u8], from: usize) -> Taken
    ensures value { result ≡ (front_of line frame.old piece.now from).taken }
    ensures frame_after { frame.new ≡ (front_of line frame.old piece.now from).frame }
{
    if line.odd {
        return Taken {
            line,
            at: from,
            ended: false,
        };
    }
    let mut len = line.len;
    let mut half = line.half;
    let mut at = from;
    let values = line::digit_values();
    let until = len + pairs_most(len, frame.len(), from, piece.len());
    while len < until {
        let high = line::digit_value(&values, piece[at]);
        let low = line::digit_value(&values, piece[at + 1]);
        if 15 < high || 15 < low {
            break;
        }
        frame[len] = high * 16 + low;
        half = high;
        len += 1;
        at += 2;
    }
    Taken {
        line: Line { len, half, ..line },
        at,
        ended: false,
    }
}
