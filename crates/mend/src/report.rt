// What is written of a line, in each of the two passes.
ghost use Rattle.std.specs.Prelude.{◌≡◌, ◌+◌, ◌≤◌, length};
ghost use Rattle.text.specs.Text.{text};
ghost use Rattle.text.specs.Pieces.{Wrote};
ghost use Rattle.mend.specs.Mending.{mended};
ghost use Rattle.mend.specs.Report.{written_of, actions_text, any_action, action_line, report_of};
ghost use Rattle.mend.specs.Places.{action_word, mended_line};

use crate::line;
use crate::line::{Actions, Outcome, either};

// What a line is in the capture that is written: its mended text, or nothing.
pub fn put_line(out: &mut [u8], at: usize, line: &[u8]) -> usize
    requires { (at + 128 ≤ length out.old) × (length line.now ≤ 80) }
    ensures { Wrote out.old at (written_of (mended line.now)) out.new result × (result ≤ at + 128) }
{
    let outcome = line::mend(out, at, line);
    match outcome {
        Outcome::Kept { to, .. } => text::put(out, to, b"\n"),
        Outcome::Dropped => at,
    }
}

// What the report says of a line: what was mended, or that it was dropped, and nothing of a sound one.
pub fn put_report(out: &mut [u8], at: usize, number: u32, line: &[u8]) -> usize
    requires { (at + 128 ≤ length out.old) × (length line.now ≤ 80) }
    ensures { Wrote out.old at (report_of number (mended line.now)) out.new result
        × (result ≤ at + 128) }
{
    let outcome = line::mend(out, at, line);
    match outcome {
        Outcome::Kept { actions, .. } => put_mended(out, at, number, actions),
        Outcome::Dropped => put_dropped(out, at, number),
    }
}

// That a line was dropped.
pub fn put_dropped(out: &mut [u8], at: usize, number: u32) -> usize
    requires { at + 128 ≤ length out.old }
    ensures { Wrote out.old at (action_line number (text "dropped")) out.new result × (result ≤ at + 128) }
{
    let number_end = text::put_decimal(out, at, b"line=", number as u64);
    text::put(out, number_end, b" action=dropped\n")
}

// What was mended of a line, if anything was.
fn put_mended(out: &mut [u8], at: usize, number: u32, actions: Actions) -> usize
    requires { at + 128 ≤ length out.old }
    ensures { Wrote out.old at (mended_line number actions) out.new result × (result ≤ at + 128) }
{
    if !any(actions) {
        return at;
    }
    let number_end = text::put_decimal(out, at, b"line=", number as u64);
    let head_end = text::put(out, number_end, b" action=");
    let list_end = put_actions(out, head_end, actions);
    text::put(out, list_end, b"\n")
}

// Whether a line was changed.
fn any(actions: Actions) -> bool
    ensures { result ≡ any_action actions }
{
    either(
        either(actions.cr, actions.case),
        either(actions.gap, actions.id),
    )
}

// The actions in their order, with commas between them.
fn put_actions(out: &mut [u8], at: usize, actions: Actions) -> usize
    requires { at + 32 ≤ length out.old }
    ensures { Wrote out.old at (actions_text actions) out.new result × (result ≤ at + 32) }
{
    let cr_end = put_action(out, at, false, actions.cr, b"cr");
    let case_end = put_action(out, cr_end, actions.cr, actions.case, b"case");
    let some = either(actions.cr, actions.case);
    let gap_end = put_action(out, case_end, some, actions.gap, b"gap");
    put_action(out, gap_end, either(some, actions.gap), actions.id, b"id")
}

// An action where it is due, behind a comma where it is not the first.
fn put_action(out: &mut [u8], at: usize, some: bool, due: bool, word: &[u8]) -> usize
    requires { (at + 8 ≤ length out.old) × (length word.now ≤ 4) }
    ensures { Wrote out.old at (action_word some due word.now) out.new result × (result ≤ at + 8) }
{
    if !due {
        return at;
    }
    if !some {
        return text::put(out, at, word);
    }
    let comma_end = text::put(out, at, b",");
    text::put(out, comma_end, word)
}
