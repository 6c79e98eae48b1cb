// The acknowledgment's frame.
ghost use Rattle.std.specs.Prelude.{◌≡◌};
ghost use Rattle.command.specs.Acknowledgment.{acknowledgment_id, acknowledgment_bytes};
ghost use Rattle.command.specs.Private.{bare_acknowledged};

use crate::{Acknowledged, Acknowledging, Acknowledgment};
use frame::standard;

// The identifier of an acknowledgment without requester and source: priority 6, DGN E800h.
const ACKNOWLEDGMENT_ID: u32 = 6 * 0x4000000 + standard::ACKNOWLEDGMENT * 256;

// DGN E8xxh, xx the requester, from our address.
pub fn id_of(address: u8, requester: u8) -> u32
    ensures { result ≡ acknowledgment_id address requester }
{
    ACKNOWLEDGMENT_ID + u32::from(requester) * 256 + u32::from(address)
}

pub fn bytes_of(reply: Acknowledgment) -> [u8; 8]
    ensures { result ≡ acknowledgment_bytes reply }
{
    let dgn = frame::dgn_bytes(reply.dgn);
    [
        reply.code,
        reply.instance,
        standard::UNUSED,
        standard::UNUSED,
        reply.requester,
        dgn[0],
        dgn[1],
        dgn[2],
    ]
}

// An answer with no frame beside it.
pub fn bare(answer: Acknowledging) -> Acknowledged
    ensures { result ≡ bare_acknowledged answer }
{
    Acknowledged {
        answer,
        id: standard::NO_FRAME,
        bytes: [0; 8],
    }
}
