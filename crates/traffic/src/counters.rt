// The counters of the pairs, and the totals: what is kept from line to line.
ghost use Rattle.std.specs.Prelude.{◌≡◌, ◌*◌, ◌≤◌, ◌<◌, max, length, take};
ghost use Rattle.words.specs.Words.{◌=?◌};
ghost use Rattle.words.specs.Lists.{first};
ghost use Rattle.std.specs.Prelude.{None};
ghost use Rattle.capture.specs.Line.{greatest_gap};
ghost use Rattle.capture.specs.Stream.{most_lines};
ghost use Rattle.traffic.specs.Counters.{seen_by, table_size, row_at, PutRow, first_frame, least_with, next_frame};
ghost use Rattle.traffic.specs.Counters.{OneMore, InTime, Counted, CountedFrame, refused_one, other_one};

use crate::seen::{Says, Seen};

// So many pairs have counters. The table has six columns of that many numbers: the pairs, their frames, the time of the
// last frame, the least gap, the greatest, and the sum of the gaps.
pub const MOST_PAIRS: usize = 64;

const FRAMES: usize = 64;

const LAST: usize = 128;

const LEAST: usize = 192;

const GREATEST: usize = 256;

const SUM: usize = 320;

pub const TABLE_SIZE: usize = 384;

// How many lines there were, how many were refused, how many are frames of pairs without counters, how many pairs have
// counters, and the time that has passed.
#[derive(Clone, Copy)]
pub struct Totals {
    pub lines: u32,
    pub refused: u32,
    pub other: u32,
    pub pairs: usize,
    pub clock: u64,
}

// The counters of one pair.
#[derive(Clone, Copy)]
pub struct Row {
    pub frames: u64,
    pub last: u64,
    pub least: u64,
    pub greatest: u64,
    pub sum: u64,
}

// Which of the first `count` pairs it is.
fn find(table: &[u64], count: usize, pair: u64) -> Option<usize>
    requires { count ≤ length table.now }
    ensures { result ≡ first (◌=?◌ pair) (take count table.now) }
{
    table[..count].iter().position(|known| pair == *known)
}

// The counters of the pair with this number.
pub fn row_at(table: &[u64], i: usize) -> Row
    requires { (i < 64) × (length table.now ≡ table_size) }
    ensures { result ≡ row_at table.now i }
{
    Row {
        frames: table[FRAMES + i],
        last: table[LAST + i],
        least: table[LEAST + i],
        greatest: table[GREATEST + i],
        sum: table[SUM + i],
    }
}

fn put_row(table: &mut [u64], i: usize, row: Row)
    requires { (i < 64) × (length table.old ≡ table_size) }
    ensures { PutRow table.old i row table.new }
{
    table[FRAMES + i] = row.frames;
    table[LAST + i] = row.last;
    table[LEAST + i] = row.least;
    table[GREATEST + i] = row.greatest;
    table[SUM + i] = row.sum;
}

// The first frame of a pair: it has no gap.
fn first_frame(time: u64) -> Row
    ensures { result ≡ first_frame time }
{
    Row {
        frames: 1,
        last: time,
        least: 0,
        greatest: 0,
        sum: 0,
    }
}

// A further frame of a pair: the time since the one before it is a gap.
fn next_frame(row: Row, clock: u64) -> Row
    requires { (row.last ≤ clock) × (row.frames < most_lines) × (row.sum ≤ clock) × (clock ≤ greatest_gap * most_lines) }
    ensures { result ≡ next_frame row clock }
{
    let gap = clock - row.last;
    Row {
        frames: row.frames + 1,
        last: clock,
        least: least_with(row.frames, row.least, gap),
        greatest: greatest_with(row.greatest, gap),
        sum: row.sum + gap,
    }
}

// The least gap with one more; a pair's second frame has its first gap.
fn least_with(frames: u64, least: u64, gap: u64) -> u64
    ensures { result ≡ least_with frames least gap }
{
    if frames == 1 {
        return gap;
    }
    if gap < least {
        return gap;
    }
    least
}

fn greatest_with(greatest: u64, gap: u64) -> u64
    ensures { result ≡ max greatest gap }
{
    if greatest < gap {
        return gap;
    }
    greatest
}

// A line counted: its pause passes first.
pub fn count(totals: Totals, seen: Seen, table: &mut [u64]) -> Totals
    requires { OneMore totals table.old }
    ensures { Counted totals table.old (seen_by seen) result table.new }
{
    let clock = totals.clock + seen.pause as u64;
    match seen.says {
        Says::Refused(_) => count_refused(totals, clock),
        Says::Frame(pair) => count_frame(totals, pair as u64, clock, table),
    }
}

// A refused line counted.
fn count_refused(totals: Totals, clock: u64) -> Totals
    requires { (totals.lines < most_lines) × (totals.refused ≤ totals.lines) }
    ensures { result ≡ refused_one totals clock }
{
    Totals {
        lines: totals.lines + 1,
        refused: totals.refused + 1,
        other: totals.other,
        pairs: totals.pairs,
        clock,
    }
}

// A frame counted.
fn count_frame(totals: Totals, pair: u64, clock: u64, table: &mut [u64]) -> Totals
    requires { OneMore totals table.old × InTime totals clock }
    ensures { CountedFrame totals table.old pair clock result table.new }
{
    match find(table, totals.pairs, pair) {
        Some(i) => {
            let row = row_at(table, i);
            put_row(table, i, next_frame(row, clock));
            Totals {
                lines: totals.lines + 1,
                refused: totals.refused,
                other: totals.other,
                pairs: totals.pairs,
                clock,
            }
        }
        None => count_new(totals, pair, clock, table),
    }
}

// A frame of a pair that has no counters: it gets them, or is one of the others.
fn count_new(totals: Totals, pair: u64, clock: u64, table: &mut [u64]) -> Totals
    requires { OneMore totals table.old × InTime totals clock
        × (first (◌=?◌ pair) (take totals.pairs table.old) ≡ None) }
    ensures { CountedFrame totals table.old pair clock result table.new }
{
    let at = totals.pairs;
    if MOST_PAIRS <= at {
        return count_other(totals, clock);
    }
    table[at] = pair;
    put_row(table, at, first_frame(clock));
    Totals {
        lines: totals.lines + 1,
        refused: totals.refused,
        other: totals.other,
        pairs: at + 1,
        clock,
    }
}

// A frame of a pair that came too late for counters of its own.
fn count_other(totals: Totals, clock: u64) -> Totals
    requires { (totals.lines < most_lines) × (totals.other ≤ totals.lines) }
    ensures { result ≡ other_one totals clock }
{
    Totals {
        lines: totals.lines + 1,
        refused: totals.refused,
        other: totals.other + 1,
        pairs: totals.pairs,
        clock,
    }
}
