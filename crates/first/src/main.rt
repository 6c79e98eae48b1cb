// A first program over the library: it hears the three frames of a long message, and prints the message.
#![tactic(auto)]

use rvc::messages::Receiver;
use rvc::messages::limits::STORAGE_BYTES;
use std::io;

fn main(rt: HostRuntime) -> io::Result<()> {
    let mut store = [0u8; STORAGE_BYTES];
    let receiver = Receiver::new();
    let opened = receiver.hear(&mut store, 0x1CECFF54, b"\x20\x09\x00\x02\xFF\xEB\xFE\x00");
    let receiver = opened.receiver;
    let stored = receiver.hear(&mut store, 0x1CEBFF54, b"\x01ACME*X1");
    let receiver = stored.receiver;
    let finished = receiver.hear(&mut store, 0x1CEBFF54, b"\x02*9\xFF\xFF\xFF\xFF\xFF");
    let answer = finished.answer;
    rt.write_all(rvc::messages::message(&store, answer))
}
