// Characters fed to a line of hexadecimal, piece by piece, with the bytes that they spell put into a lent frame.
// Assumes nothing: any characters and any lengths get an answer. It promises the line, the index and every byte of the
// frame as hexadecimal/specs/Taking.antt says.
ghost use Rattle.std.specs.Prelude.{◌≡◌, drop};
ghost use Rattle.hexadecimal.specs.Taking.{taken_from, frame_after};

use crate::line::{COUNTED, Line, Taken};
use crate::{line, pairs};

// Takes in characters one by one, up to the end of the line or of the piece.
fn take_each(mut line: Line, frame: &mut [u8], piece: &[u8], from: usize) -> Taken
    ensures value { result ≡ taken_from line frame.old from (drop from piece.now) }
    ensures frame_after { frame.new ≡ frame_after line frame.old (drop from piece.now) }
{
    let values = line::digit_values();
    for at in from..piece.len() {
        let c = piece[at];
        if c == b'\n' {
            return Taken {
                line,
                at: at + 1,
                ended: true,
            };
        }
        let d = line::digit_value(&values, c);
        if 15 < d {
            line.bad = true;
            continue;
        }
        if !line.odd {
            line.half = d;
            line.odd = true;
            continue;
        }
        line.odd = false;
        if COUNTED <= line.len {
            continue;
        }
        octets::keep(frame, line.len, line.half % 16 * 16 + d);
        line.len += 1;
    }
    Taken {
        line,
        at: from.max(piece.len()),
        ended: false,
    }
}

// Takes in the characters of piece from an index on, up to the end of the line, newline included, or of the piece. The
// bytes that they spell go into frame, as many as it has room for; those past it are counted all the same. Behind its
// pairs of digits a line mostly ends, so that this is looked at before the table of digits is made once more.
pub fn take_in(line: Line, frame: &mut [u8], piece: &[u8], from: usize) -> Taken
    ensures value { result ≡ taken_from line frame.old from (drop from piece.now) }
    ensures frame_after { frame.new ≡ frame_after line frame.old (drop from piece.now) }
{
    let front = pairs::take_pairs(line, frame, piece, from);
    let at = front.at;
    if at < piece.len() && piece[at] == b'\n' {
        return Taken {
            line: front.line,
            at: at + 1,
            ended: true,
        };
    }
    take_each(front.line, frame, piece, at)
}
