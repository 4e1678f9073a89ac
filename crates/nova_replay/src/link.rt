// How long the link header of a frame is.
ghost use Rattle.std.specs.Prelude.{◌≡◌, ◌≤◌, length};
ghost use Rattle.nova_replay.specs.Frames.{header_length, header_of, tags_length, is_tag};

/// How many bytes of a frame stand before its packet. A link type that isn't known has no header.
pub fn link_length(link: u16, frame: &[u8]) -> usize
    ensures header { result ≡ header_length link frame.now }
    ensures within { result ≤ length frame.now }
{
    header_of(link, frame).min(frame.len())
}

// By the numbers that captures give link types: Ethernet, loopback, Linux cooked.
#[tactic(auto, using(crate::proofs::Fronts::drop_least))]
fn header_of(link: u16, frame: &[u8]) -> usize
    ensures { result ≡ header_of link frame.now }
{
    if link == 1 {
        return 14 + tags_length(&frame[12usize.min(frame.len())..]);
    }
    if link == 0 || link == 108 {
        return 4;
    }
    if link == 113 {
        return 16;
    }
    if link == 276 { 20 } else { 0 }
}

// How many bytes of VLAN tags stand in front: those of 802.1Q and 802.1ad.
fn tags_length(bytes: &[u8]) -> usize
    ensures tags { result ≡ tags_length bytes.now }
    ensures within { result ≤ length bytes.now }
{
    let mut len = 0;
    let mut rest = bytes;
    while let [high, low, _, _, after @ ..] = rest {
        if !is_tag(*high, *low) {
            return len;
        }
        len += 4;
        rest = after;
    }
    len
}

fn is_tag(high: u8, low: u8) -> bool
    ensures { result ≡ is_tag high low }
{
    (high == 0x81 && low == 0) || (high == 0x88 && low == 0xa8)
}
