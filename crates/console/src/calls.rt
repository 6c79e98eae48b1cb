// Every call of the library, part by part, with the shapes of its arguments; and the methods that number a refusal.
use crate::{arguments, notes, say, typing};
use streams::Streams;

// A call: its part of the library, and its number in it, both counted from 0. They are numbers and no enum, since they
// are the places of its name and of its shape in the lists below.
#[derive(Clone, Copy)]
pub struct Call {
    pub part: usize,
    pub n: usize,
}

// The parts, in the order of the lists below.
fn part(notes: &[u64]) -> Option<usize> {
    typing::part(
        notes,
        b"frame message fast catalogue claim nodes command faults capture exercise text",
    )
}

// Which call the line asks for.
pub fn asked(notes: &[u64]) -> Option<Call> {
    let part = part(notes)?;
    let n = typing::find(
        notes,
        b"take_apart form check destination_of catalogue_form number_of bytes_of dgn_bytes dgn_of |\
          Receiver::new Receiver::hear Receiver::pause message announcement packet |\
          Receiver::start Receiver::hear Receiver::pause message frame_of |\
          rows row_at row_of rows_of packed_rows row_in row_of_in rows_in read read_scaled classify read_row \
          read_row_scaled write write_row has_instance steps_in_one |\
          Claim::start Claim::hear Claim::pause Claim::stands Claim::our_claim Claim::keeps_rules \
          Claim::holds_list |\
          empty hear look_up find_address pause find_challenger |\
          Host::start Host::route Host::request acknowledge |\
          packed_rows row_at read write read_service_point write_service_point Sender::start Sender::add \
          Sender::clear Sender::step Sender::request Sender::reply |\
          take_apart write Cutter::new Cutter::next Cutter::last |\
          long_message fast_packet row |\
          put put_decimal put_hex put_bytes decimal_width |",
        part,
    )?;
    Some(Call { part, n })
}

// Reads and notes the arguments of a call. Where one does not fit, that is said, and the answer is no.
pub fn reads(notes: &mut [u64], call: Call, streams: &mut Streams) -> bool {
    let shapes = typing::nth_list(
        b"4 141 4b 4 4 e 8 4 111 |\
          . 4b 2 . b4 b44 |\
          l 4b 2 . b14 |\
          . 8 41 4 . 8 41 4 84b 84b 8 4b 4b 84bv 4bv 4 u1 |\
          8b 4b 2 . . . . |\
          . 4b 1 8 2 1 |\
          8d 4b 4b 1114 |\
          . 8 84b 84bv 4b 4b4 e e2 8 . 4b 4b |\
          b 24e . b8 . |\
          b b1 8 |\
          88b 88b8 88b88 88b 8 |",
        call.part,
    );
    arguments::called(notes, shapes, call.n, streams)
}

// The number of the last answer of a type. The notes of the types stand in this order.
pub fn refusals(notes: &[u64], streams: &mut Streams) {
    let kind = typing::asked(
        notes,
        b"frame::Apart::refusal frame::Formed::refusal frame::BadFrame::refusal frame::Verdict::refusal \
          message::Answer::refusal message::Pausing::refusal message::Unsplittable::refusal \
          message::Announcing::refusal message::Splitting::refusal \
          fast::Starting::refusal fast::Answer::refusal fast::Pausing::refusal fast::Splitting::refusal \
          catalogue::Looked::refusal catalogue::Reading::refusal catalogue::ScaledReading::refusal \
          catalogue::Writing::refusal \
          claim::Starting::refusal claim::Hearing::refusal claim::Pausing::refusal claim::Standing::refusal \
          claim::Sending::refusal \
          nodes::Hearing::refusal nodes::LookedUp::refusal nodes::FoundAddress::refusal nodes::Pausing::refusal \
          nodes::FoundChallenger::refusal \
          command::Starting::refusal command::Routing::refusal command::Requesting::refusal \
          command::Acknowledging::refusal \
          faults::ServicePoint::refusal faults::Adding::refusal faults::Clearing::refusal \
          faults::Stepping::refusal faults::Requesting::refusal \
          capture::Reading::refusal",
    );
    let Some(kind) = kind else {
        return say::unknown(streams);
    };
    if typing::ends_here(notes, 1, streams) {
        say::form(b"#\n", notes, notes::REFUSALS.wrapping_add(kind), streams);
    }
}
