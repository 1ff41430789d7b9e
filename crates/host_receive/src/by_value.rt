// Receiving a frame by value: the pair comes in and goes back as a value. Assumes nothing. It promises pair, answer and
// every byte of memory as host/specs/Host.antt, receive_of, says.
ghost use Rattle.std.specs.Prelude.{◌≡◌};
ghost use Rattle.host.specs.Host.{receive_of, stepped_of};

use host::{Pair, Stepped};
use host_words::pack;

// The pair is packed into words, received in place, and unpacked.
pub fn receive(pair: Pair, f: &[u8], memory: &mut [u8]) -> Stepped
    ensures value { result ≡ stepped_of (receive_of pair f.now memory.old) }
    ensures memory_after { memory.new ≡ (receive_of pair f.now memory.old).memory }
{
    let mut words = [0u64; 67];
    pack::pack(&mut words, pair);
    let answer = crate::receive_in_place(&mut words, f, memory);
    Stepped {
        pair: pack::unpack(&words),
        answer,
    }
}
