// The refusal of one message at the host, 7 to 12. Assumes nothing of the state that it is held against, which may be
// one that no run reaches. It promises host/specs/Terms.antt, message_refusal.
ghost use Rattle.std.specs.Prelude.{◌≡◌, ◌&&◌, ◌==◌, nat_lt};
ghost use Rattle.refusal.specs.Reason.{refusal_number};
ghost use Rattle.host.specs.Terms.{agrees, terms_refusal, address_refusal, message_refusal};

use bitmap::Bitmap;
use host::Open;
use refusal::Reason;
use wire::MessageHeader;

// Whether the header says what the transaction's first message said, if there was one.
#[tactic(auto, unfolding(host::specs::Terms::agrees))]
fn has_same_terms(o: Open, h: MessageHeader) -> bool
    ensures { result ≡ agrees o h }
{
    o.received == 0
        || o.count == h.count && o.address == h.completion_address && o.value == h.completion_value
}

// Whether a message carries data though it is a bare one.
fn is_bare_with_data(h: MessageHeader, len: u16) -> bool
    ensures { result ≡ (h.count == 0) && nat_lt 0 len }
{
    h.count == 0 && 0 < len
}

// Refuses for the first of 7 to 10 a message whose transaction lies d past the lowest one that is not complete.
#[tactic(auto, unfolding(host::specs::Terms::terms_refusal))]
fn check_terms(d: u32, closed: u32, o: Open, h: MessageHeader, len: u16) -> Result<(), Reason>
    ensures { refusal_number result ≡ terms_refusal d closed o h len }
{
    if 32 <= d {
        return Err(Reason::TransactionOutsideWindow);
    }
    // All three tests are made before the first is asked: without branches between them they cost less.
    let is_closed = closed.is_marked(d);
    let is_same = has_same_terms(o, h);
    let carries_data = is_bare_with_data(h, len);
    if is_closed {
        return Err(Reason::TransactionClosed);
    }
    if !is_same {
        return Err(Reason::TransactionDiffers);
    }
    if carries_data {
        return Err(Reason::BareWithData);
    }
    Ok(())
}

// Refuses for the first of 11 and 12 against a memory of size bytes. The sums are taken in words wide enough for them.
#[tactic(auto, unfolding(host::specs::Terms::address_refusal))]
fn check_addresses(size: usize, h: MessageHeader, len: u16) -> Result<(), Reason>
    ensures { refusal_number result ≡ address_refusal size h len }
{
    let data_end = h.data_address as usize + len as usize;
    let completion_end = h.completion_address as usize + 4;
    if size < data_end {
        return Err(Reason::DataOutsideMemory);
    }
    if size < completion_end {
        return Err(Reason::CompletionOutsideMemory);
    }
    Ok(())
}

// Refuses a message with len data bytes for the first of 7 to 12.
pub(crate) fn check(
    d: u32,
    closed: u32,
    o: Open,
    h: MessageHeader,
    len: u16,
    size: usize,
) -> Result<(), Reason>
    ensures { refusal_number result ≡ message_refusal d closed o h len size }
{
    check_terms(d, closed, o, h, len)?;
    check_addresses(size, h, len)
}
