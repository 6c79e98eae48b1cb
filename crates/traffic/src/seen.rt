// What the figures look at in a line: the time that it lets pass, and its pair or its refusal.
ghost use Rattle.std.specs.Prelude.{◌≡◌};
ghost use Rattle.words.specs.Words.{refused};
ghost use Rattle.capture.specs.Line.{line_read};
ghost use Rattle.traffic.specs.Figures.{seen_in};
ghost use Rattle.traffic.specs.Counters.{seen_by, says_by, says_of};

use words::Refusal;

// The number of a refusal, or the pair of sender and DGN of a frame: bits 24 to 0 of its identifier.
#[derive(Clone, Copy)]
pub enum Says {
    Refused(u32),
    Frame(u32),
}

#[derive(Clone, Copy)]
pub struct Seen {
    pub pause: u16,
    pub says: Says,
}

// A line, without its newline.
pub fn look_at(text: &[u8]) -> Seen
    ensures { seen_by result ≡ seen_in (line_read text.now) }
{
    let line = capture::take_apart(text);
    match line.answer {
        Ok(()) => Seen {
            pause: line.gap,
            says: judge(line.id, line.bytes),
        },
        Err(_) => malformed(),
    }
}

// A malformed line, or one of more than 80 bytes: it passes no time.
pub fn malformed() -> Seen
    ensures { seen_by result ≡ seen_in (refused 19) }
{
    Seen {
        pause: 0,
        says: Says::Refused(19),
    }
}

// What a frame counts as.
fn judge(id: u32, bytes: [u8; 8]) -> Says
    ensures { says_by result ≡ says_of id 8 }
{
    match frame::check(id, &bytes).verdict {
        Ok(_) => Says::Frame(id % 0x2000000),
        Err(why) => Says::Refused(u32::from(why.refusal())),
    }
}
