// A stream cut into lines: the next newline, and what the cutter keeps.
ghost use Rattle.std.specs.Prelude.{◌≡◌, ◌+◌, ◌≤◌, ◌<◌, length, drop};
ghost use Rattle.words.specs.Words.{◌=?◌};
ghost use Rattle.words.specs.Lists.{first};
ghost use Rattle.capture.specs.Stream.{newline, line_in, most_lines};
ghost use Rattle.capture.specs.Cutter.{is_too_long, carried_on, closed, line_at};

use crate::{Cutter, Cutting, LONGEST_LINE};

// The position of the first newline from `from` on, or the block's length.
pub fn newline(block: &[u8], from: usize) -> usize
    requires { from ≤ length block.now }
    ensures { result ≡ from + length (line_in (drop from block.now)) }
{
    match first_newline(&block[from..]) {
        Some(count) => from + count,
        None => block.len(),
    }
}

fn first_newline(part: &[u8]) -> Option<usize>
    ensures { result ≡ first (λ byte. byte =? newline) part.now }
{
    part.iter().position(|byte| *byte == b'\n')
}

// Where the line lies that ends before `to`, its part in the block starting at `from`.
pub fn line(length: usize, from: usize, to: usize) -> Cutting
    requires { from ≤ to }
    ensures { result ≡ line_at length from to }
{
    let count = to - from;
    if too_long(length, count) {
        return Cutting::TooLong;
    }
    if length == 0 {
        return Cutting::Within { from, to };
    }
    Cutting::Carried(length + count)
}

// Whether a line of which `length` bytes came before grows too long by `more`.
fn too_long(length: usize, more: usize) -> bool
    ensures { result ≡ is_too_long length more }
{
    LONGEST_LINE < length || LONGEST_LINE - length < more
}

// The cutter after a block whose end is no end of the line.
pub fn carry_on(cutter: Cutter, part: &[u8]) -> Cutter
    ensures { result ≡ carried_on cutter part.now }
{
    if too_long(cutter.length, part.len()) {
        return Cutter {
            length: LONGEST_LINE + 1,
            ..cutter
        };
    }
    let mut carry = cutter.carry;
    let length = text::put(&mut carry, cutter.length, part);
    Cutter {
        carry,
        length,
        ..cutter
    }
}

// The cutter after a line: a line that lies in the block is not copied.
pub fn close(cutter: Cutter, part: &[u8]) -> Cutter
    requires { cutter.lines < most_lines }
    ensures { result ≡ closed cutter part.now }
{
    let carry = cutter.carry;
    if cutter.length == 0 {
        return Cutter {
            carry,
            length: 0,
            lines: cutter.lines + 1,
        };
    }
    let carried = carry_on(cutter, part);
    let carry = carried.carry;
    Cutter {
        carry,
        length: 0,
        lines: cutter.lines + 1,
    }
}
