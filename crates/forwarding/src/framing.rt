ghost use Rattle.std.specs.Prelude.{◌≡◌, ◌^◌, ◌<◌, ◌≤◌, length, take, IfOk};
ghost use Rattle.path_header.specs.Value.{header_len};
ghost use Rattle.path_header.specs.Spelling.{FitsBits, spelling};
ghost use Rattle.forwarding.specs.Frame.{frame_of};

use isd_as::IsdAs;
use path_header::{Header, MAX_HEADER_LEN, encode};
use std::alloc::{AllocError, Global};

/// The bytes of a packet: 8 bytes of destination address, 8 bytes of source address, its path
/// header, and its payload. It allocates once, or memory runs out.
#[tactic(auto, using(crate::proofs::Framed::framed_in_turn))]
pub fn frame(
    alloc: Global,
    source: IsdAs,
    destination: IsdAs,
    header: &Header,
    payload: &[u8],
) -> Result<Vec<u8>, AllocError>
    requires { length payload.now < 2 ^ 32 }
    ensures value { IfOk result (λ bytes.
        bytes.items ≡ frame_of source destination header.now payload.now) }
    // The numbers of the header and both addresses fit into their bits.
    ensures fits { IfOk result (λ _. FitsBits header.now) }
    ensures addresses { (source < 2 ^ 64) × (destination < 2 ^ 64) }
{
    let mut room = [0; MAX_HEADER_LEN];
    let _len = header.encoded_len();
    let len = spell(header, &mut room);
    let mut bytes = Vec::with_capacity(alloc, 16 + len + payload.len())?;
    bytes.extend_from_slice(&destination.to_bytes())?;
    bytes.extend_from_slice(&source.to_bytes())?;
    bytes.extend_from_slice(&room[..len])?;
    bytes.extend_from_slice(payload)?;
    Ok(bytes)
}

/// Writes the header to the front of the room, and returns its length in bytes.
fn spell(header: &Header, room: &mut [u8]) -> usize
    requires { header_len header.now ≤ length room.old }
    ensures within { result ≤ length room.new }
    ensures text { take result room.new ≡ spelling header.now }
    ensures fits { FitsBits header.now }
{
    encode(header, room).unwrap()
}
