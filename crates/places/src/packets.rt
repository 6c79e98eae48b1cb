// The frames that a message is split into.
ghost use Rattle.std.specs.Prelude.{◌≡◌, ◌≤◌, length};
ghost use Rattle.frame.specs.Frame.{frame_bytes};
ghost use Rattle.places.specs.Packets.{filled};

use crate::bytes;
use frame::standard;

// A frame's eight bytes: its own first ones, as many of the message's as it has room for, and FFh for what is left.
pub fn filled(head: &[u8], message: &[u8]) -> [u8; 8]
    requires { length head.now ≤ frame_bytes }
    ensures { result ≡ filled head.now message.now }
{
    let from = head.len();
    let count = message.len().min(8 - from);
    let mut frame = [standard::UNUSED; 8];
    bytes::put(&mut frame, 0, head);
    bytes::put(&mut frame, from, &message[..count]);
    frame
}
