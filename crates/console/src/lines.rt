// Lines of standard input.
use streams::Streams;

// A line of so many bytes is too long.
pub const LONGEST: usize = 4096;

// Reads up to the next line feed or the end of the input, and says how many bytes the line has; none where the input
// has ended. Bytes past the buffer's end are dropped: a line that fills the buffer is one too long.
pub fn read_line(line: &mut [u8], streams: &mut Streams) -> Option<usize> {
    let mut count: usize = 0;
    for _ in 0..u64::MAX {
        let Some(byte) = read_byte(streams) else {
            break;
        };
        if byte == b'\n' {
            return Some(count);
        }
        if count < line.len() {
            line[count] = byte;
            count += 1;
        }
    }
    (0 < count).then_some(count)
}

fn read_byte(streams: &mut Streams) -> Option<u8> {
    let mut one = [0u8; 1];
    (streams.read(&mut one) == 1).then_some(one[0])
}
