// The lines of the report, put into lent bytes behind what stands there.
ghost use Rattle.std.specs.Prelude.{◌≡◌, ◌+◌, ◌≤◌, length};
ghost use Rattle.words.specs.Words.{refused};
ghost use Rattle.text.specs.Pieces.{Wrote};
ghost use Rattle.traffic.specs.Report.{refusal_text, head_text, sum_text, other_text, closing_text};
ghost use Rattle.traffic.specs.Counters.{says_by, table_size, Held, row_gaps_text, row_text, rows_text};
ghost use Rattle.traffic.specs.Reader.{Closed};

use crate::counters;
use crate::counters::{Row, Totals};
use crate::seen::Says;

// What a line prints: a refused one its number, as busread has it; any other nothing.
pub fn put_says(out: &mut [u8], at: usize, number: u32, says: Says) -> usize
    requires { at + 64 ≤ length out.old }
    ensures { Wrote out.old at (refusal_text number (says_by says)) out.new result × (result ≤ at + 64) }
{
    match says {
        Says::Refused(refusal) => put_refusal(out, at, number, refusal),
        Says::Frame(_) => at,
    }
}

fn put_refusal(out: &mut [u8], at: usize, number: u32, refusal: u32) -> usize
    requires { at + 64 ≤ length out.old }
    ensures { Wrote out.old at (refusal_text number (refused refusal)) out.new result × (result ≤ at + 64) }
{
    let number_end = text::put_decimal(out, at, b"frame=", number as u64);
    let refusal_end = text::put_decimal(out, number_end, b" refusal=", refusal as u64);
    text::put(out, refusal_end, b"\n")
}

// The figures of the pairs, of the others, and the closing line.
pub fn put_figures(out: &mut [u8], at: usize, totals: Totals, table: &[u64]) -> usize
    requires { (at + 16384 ≤ length out.old) × Held totals table.now }
    ensures { Closed totals table.now out.old at result out.new }
{
    let pairs_end = put_pairs(out, at, table, totals.pairs);
    put_closing(out, pairs_end, totals)
}

// A line for each pair, in the order of the table.
fn put_pairs(out: &mut [u8], at: usize, table: &[u64], count: usize) -> usize
    requires { (at + 16000 ≤ length out.old) × (count ≤ 64) × (length table.now ≡ table_size) }
    ensures { Wrote out.old at (rows_text table.now count) out.new result × (result ≤ at + 16000) }
{
    let mut end = at;
    for i in 0..count {
        end = put_pair(out, end, table[i], counters::row_at(table, i));
    }
    end
}

// The figures of a pair.
fn put_pair(out: &mut [u8], at: usize, pair: u64, row: Row) -> usize
    requires { at + 200 ≤ length out.old }
    ensures { Wrote out.old at (row_text pair row) out.new result × (result ≤ at + 200) }
{
    let head_end = put_head(out, at, pair, row.frames);
    let gaps_end = put_gaps(out, head_end, row);
    put_sum(out, gaps_end, row.sum)
}

// Whose figures they are, and how many frames.
fn put_head(out: &mut [u8], at: usize, pair: u64, frames: u64) -> usize
    requires { at + 48 ≤ length out.old }
    ensures { Wrote out.old at (head_text pair frames) out.new result × (result ≤ at + 48) }
{
    let source_end = text::put_hex(out, at, b"sa=", pair % 256, 2);
    let dgn_end = text::put_hex(out, source_end, b" dgn=", pair / 256 % 131072, 5);
    text::put_decimal(out, dgn_end, b" frames=", frames)
}

// The least and the greatest gap; a pair that was seen once has none.
fn put_gaps(out: &mut [u8], at: usize, row: Row) -> usize
    requires { at + 64 ≤ length out.old }
    ensures { Wrote out.old at (row_gaps_text row) out.new result × (result ≤ at + 64) }
{
    if row.frames == 1 {
        return text::put(out, at, b" least=none greatest=none");
    }
    let least_end = text::put_decimal(out, at, b" least=", row.least);
    text::put_decimal(out, least_end, b" greatest=", row.greatest)
}

// The sum of the gaps ends the line.
fn put_sum(out: &mut [u8], at: usize, sum: u64) -> usize
    requires { at + 32 ≤ length out.old }
    ensures { Wrote out.old at (sum_text sum) out.new result × (result ≤ at + 32) }
{
    let sum_end = text::put_decimal(out, at, b" sum=", sum);
    text::put(out, sum_end, b"\n")
}

// The frames of the other pairs, and the closing line.
fn put_closing(out: &mut [u8], at: usize, totals: Totals) -> usize
    requires { at + 128 ≤ length out.old }
    ensures { Wrote out.old at (closing_text totals.other totals.lines totals.refused) out.new result }
{
    let other_end = put_other(out, at, totals.other);
    let frames_end = text::put_decimal(out, other_end, b"frames=", totals.lines as u64);
    let refused_end = text::put_decimal(out, frames_end, b" refused=", totals.refused as u64);
    text::put(out, refused_end, b"\n")
}

fn put_other(out: &mut [u8], at: usize, other: u32) -> usize
    requires { at + 32 ≤ length out.old }
    ensures { Wrote out.old at (other_text other) out.new result × (result ≤ at + 32) }
{
    let other_end = text::put_decimal(out, at, b"other=", other as u64);
    text::put(out, other_end, b"\n")
}
