// The console's notes: a list of numbers, each with its place. The line that was typed stands here, a letter a note;
// its arguments are written here as they are read; the number of the last refusal of each kind of answer stays here,
// and so does all state but storage and packed rows: field after field, record after record.
//
// They are one list with fixed places, and no struct of the library's values: `set` writes any field of any state by the
// place of its name in a list of names, `show` prints it by a pattern, and a note may hold what no value of a type may.
ghost use Rattle.std.specs.Prelude.{◌≡◌, ◌≤◌, length, take};

// How many notes there are.
pub const NOTES: usize = 8552;

// The arguments of a line that are numbers, in order.
pub const FIRST: usize = 0;

pub const SECOND: usize = 1;

pub const THIRD: usize = 2;

pub const FOURTH: usize = 3;

pub const FIFTH: usize = 4;

// How many letters the line has, how many bytes its argument of bytes, and how many numbers its list.
pub const LETTERS: usize = 7;

pub const BYTES: usize = 8;

pub const LIST: usize = 9;

// What a value to write is: 0 to 2 for the classes NoData, OutOfRange and Reserved, or a number, or one below zero.
pub const VALUE: usize = 10;

pub const SCALED: u64 = 3;

pub const NEGATIVE: u64 = 4;

// Whether lines are printed before their answers.
pub const ECHO: usize = 12;

// How much is lent: of each storage in bytes, of the node table in records, of the packed rows in rows.
pub const LENT: usize = 13;

pub const MESSAGE_STORAGE: usize = 13;

pub const FAST_STORAGE: usize = 14;

pub const TABLE: usize = 15;

pub const PACKED: usize = 16;

// The last eight bytes that a call gave for sending.
pub const THAT: usize = 24;

// The numbers of the last refusals, by the kind of answer. They are no enum: a kind is the place of its note, and that is
// the place of its name in the list of calls.rt, so an enum would only need a second list of the same places.
pub const REFUSALS: usize = 32;

pub const FRAME_APART: usize = 32;

pub const FRAME_FORMED: usize = 33;

pub const FRAME_BAD_FRAME: usize = 34;

pub const FRAME_VERDICT: usize = 35;

pub const MESSAGE_ANSWER: usize = 36;

pub const MESSAGE_PAUSING: usize = 37;

pub const MESSAGE_UNSPLITTABLE: usize = 38;

pub const MESSAGE_ANNOUNCING: usize = 39;

pub const MESSAGE_SPLITTING: usize = 40;

pub const FAST_STARTING: usize = 41;

pub const FAST_ANSWER: usize = 42;

pub const FAST_PAUSING: usize = 43;

pub const FAST_SPLITTING: usize = 44;

pub const CATALOGUE_LOOKED: usize = 45;

pub const CATALOGUE_READING: usize = 46;

pub const CATALOGUE_SCALED_READING: usize = 47;

pub const CATALOGUE_WRITING: usize = 48;

pub const CLAIM_STARTING: usize = 49;

pub const CLAIM_HEARING: usize = 50;

pub const CLAIM_PAUSING: usize = 51;

pub const CLAIM_STANDING: usize = 52;

pub const CLAIM_SENDING: usize = 53;

pub const NODES_HEARD: usize = 54;

pub const NODES_LOOKED_UP: usize = 55;

pub const NODES_FOUND_ADDRESS: usize = 56;

pub const NODES_PAUSING: usize = 57;

pub const NODES_FOUND_CHALLENGER: usize = 58;

pub const COMMAND_STARTING: usize = 59;

pub const COMMAND_ROUTING: usize = 60;

pub const COMMAND_REQUESTING: usize = 61;

pub const COMMAND_ACKNOWLEDGING: usize = 62;

pub const FAULTS_SERVICE_POINT: usize = 63;

pub const FAULTS_ADDING: usize = 64;

pub const FAULTS_CLEARING: usize = 65;

pub const FAULTS_STEPPING: usize = 66;

pub const FAULTS_REQUESTING: usize = 67;

pub const CAPTURE_READING: usize = 68;

// State that is a number each, in the order in which `state` names them: of the receiver of fast packets how many DGNs
// are named; of the claim its name, candidates, position, wait, silent, losses; of the host how many entries it has,
// and its edition; of the cutter its length and lines; of the row its dgn, first, width, unit, plain, two_state.
pub const SINGLE: usize = 100;

pub const FAST_NAMED: usize = 100;

pub const CLAIM: usize = 101;

pub const HOST_COUNT: usize = 107;

pub const HOST_EDITION: usize = 108;

pub const CUTTER: usize = 109;

pub const ROW: usize = 111;

// The named DGNs, 16; the claim's list of 16 addresses; the 80 characters that the cutter carries.
pub const FAST_DGNS: usize = 120;

pub const CLAIM_LIST: usize = 140;

pub const CUTTER_CARRY: usize = 160;

// The last answer of each receiver: whether a message is finished, and its place, sender, dgn and length.
pub const MESSAGE_FINISHED: usize = 250;

pub const FAST_FINISHED: usize = 255;

// The places of the receiver of long messages, eight of sender, length, dgn, expected, idle; and of that of fast
// packets, eight of sender, dgn, sequence, length, expected, idle.
pub const MESSAGE_PLACES: usize = 260;

pub const FAST_PLACES: usize = 300;

// The entries that a host is started from, and those of the host: sixteen each of command, status, instance,
// zero_is_all.
pub const ENTRIES: usize = 360;

pub const HOST_ENTRIES: usize = 424;

// The node table: 300 records of present, name, challenger, wait.
pub const NODES: usize = 500;

// The numbers of a list that was typed, up to 32.
pub const NUMBERS: usize = 1700;

pub const MOST_NUMBERS: usize = 32;

// The bytes that were typed, up to 2,048.
pub const DATA: usize = 2000;

pub const MOST_BYTES: usize = 2048;

// The letters of the line, up to 4,096.
pub const LINE: usize = 4096;

// The sender of faults: 32 places of eight bytes, period, until_due, age; and the eight bytes of no fault.
pub const FAULTS: usize = 8192;

pub const NO_FAULT: usize = 8544;

// A note; 0 for a place that there is not.
pub fn get(notes: &[u64], at: usize) -> u64 {
    notes.get(at).copied().unwrap_or(0)
}

// The same as a number of another type; 0 where that does not hold it, for no larger one is noted where one is asked for.
pub fn get_as<T: TryFrom<u64> + Default>(notes: &[u64], at: usize) -> T
where
    T::Error: Drop,
{
    T::try_from(get(notes, at)).unwrap_or_default()
}

// Writes a note; nothing for a place that there is not.
pub fn put(notes: &mut [u64], at: usize, value: u64) {
    if at < notes.len() {
        notes[at] = value;
    }
}

// A byte of a list; 0 past its end.
pub fn byte_at(bytes: &[u8], at: usize) -> u8 {
    bytes.get(at).copied().unwrap_or(0)
}

// Writes a byte; nothing past the end.
pub fn put_byte(bytes: &mut [u8], at: usize, value: u8) {
    if at < bytes.len() {
        bytes[at] = value;
    }
}

// So many of a list, and never more than there are.
pub fn bounded<T>(count: usize, list: &[T]) -> usize
    ensures { (result ≤ length list.now) × (result ≡ length (take result list.now)) }
{
    count.min(list.len())
}

// The bytes that were typed, and zeros behind them.
pub fn typed(notes: &[u64]) -> [u8; MOST_BYTES] {
    let mut bytes = [0u8; MOST_BYTES];
    for (i, byte) in bytes.iter_mut().enumerate() {
        *byte = field_as(notes, DATA, i);
    }
    bytes
}

// A field of a record that begins at `at`; 0 for a field that there is not.
pub fn field(notes: &[u64], at: usize, n: usize) -> u64 {
    get(notes, at.wrapping_add(n))
}

// The same as a number of another type.
pub fn field_as<T: TryFrom<u64> + Default>(notes: &[u64], at: usize, n: usize) -> T
where
    T::Error: Drop,
{
    get_as(notes, at.wrapping_add(n))
}

// Writes numbers from a place on.
pub fn put_all(notes: &mut [u64], at: usize, numbers: &[u64]) {
    for (i, number) in numbers.iter().enumerate() {
        put(notes, at.wrapping_add(i), *number);
    }
}

// Where a record begins, of those of `size` fields from `at` on.
pub fn record(at: usize, size: usize, position: usize) -> usize {
    at.wrapping_add(position.wrapping_mul(size))
}

// Whether so many notes from a place on are all 0.
pub fn all_zero(notes: &[u64], at: usize, size: usize) -> bool {
    (0..size).all(|i| field(notes, at, i) == 0)
}
