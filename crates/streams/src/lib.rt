// Standard input and standard output, and the first error of a call of them. After it nothing more is read or written:
// the input counts as ended, and the program returns the error at its end.
#![tactic(auto)]

ghost use Rattle.std.specs.Prelude.{◌≡◌, ◌≤◌, length, take};

use std::io;
use std::io::{Print, Read, Stdin, Stdout};

#[derive(Clone, Copy)]
pub struct Streams {
    input: Stdin,
    output: Stdout,
    went: io::Result<()>,
}

impl Streams {
    pub fn new(rt: &HostRuntime) -> Streams {
        Streams {
            input: rt.stdin(),
            output: rt.stdout(),
            went: Ok(()),
        }
    }

    // Reads once, and says how many bytes of the block were read; none is the end.
    pub fn read(&mut self, block: &mut [u8]) -> usize
        ensures { (result ≤ length block.new) × (result ≡ length (take result block.new)) }
    {
        if self.went.is_err() {
            return 0;
        }
        match self.input.read(block) {
            Ok(count) => count,
            Err(error) => {
                self.went = Err(error);
                0
            }
        }
    }

    // Writes all these bytes.
    pub fn write(&mut self, bytes: &[u8]) {
        if self.went.is_ok() {
            self.went = self.output.write_all(bytes);
        }
    }

    // How it went.
    pub fn outcome(self) -> io::Result<()> {
        self.went
    }
}
