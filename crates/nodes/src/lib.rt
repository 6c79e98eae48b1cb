// The node table (RULES 9): which NAME holds which address, and which NAME challenges it there. The table is a slice of
// records that the caller lends; record a stands for address a.
#![tactic(auto)]

mod records;

ghost use Rattle.std.specs.Prelude.{◌≡◌};
ghost use Rattle.nodes.specs.Promises.{Empty, Hear, Pause, LookUp, FindAddress, FindChallenger};
ghost use Rattle.nodes.specs.Promises.{number_of_bad_table, number_of_not_heard, not_heard_for};
ghost use Rattle.nodes.specs.declared.NotHeard.TheVariants.{BadFrame};

use frame::{BadFrame, standard};
use words::Refusal;

// A table has a record for each of the addresses 0 to 253; what stands past them is neither read nor written.
pub const RECORDS: usize = 254;

// A challenger takes its record after so many milliseconds.
pub const TAKES_AFTER: u16 = 250;

// A record: whether a node holds the address, and its NAME; the NAME that challenges it, 0 for none, and for how many
// milliseconds it has, up to 249. A challenger has a higher NAME than the holder, and so is never 0. Where nobody holds
// the address, or nobody challenges the holder, what is missing is all zeros. They are flag and numbers, and no Option,
// since a lent table can hold a record that breaks this, and is refused with 2.
#[derive(Clone, Copy)]
pub struct Node {
    pub present: bool,
    pub name: u64,
    pub challenger: u64,
    pub wait: u16,
}

// What came of a frame that is heard: a claim's record took the NAME; or stays with a lower one, which the NAME now
// challenges; or which a lower NAME than this one challenges already, so that the claimer stands nowhere; a claim from
// 254, whose sender has no address; or no claim.
#[derive(Clone, Copy)]
pub enum Effect {
    Taken(u8),
    Challenges(u8),
    HeldByLower(u8),
    Silent,
    NothingToDo,
}

// Which NAME challenges the holder of an address, and for how many milliseconds it has.
#[derive(Clone, Copy)]
pub struct Challenger {
    pub name: u64,
    pub wait: u16,
}

// Why a table is refused: 1 and 2.
#[derive(Clone, Copy)]
pub enum BadTable {
    TableTooShort,
    BrokenState,
}

// Why a frame is not heard: refusals 1, 2, and 3 to 6.
#[derive(Clone, Copy)]
pub enum NotHeard {
    TableTooShort,
    BrokenState,
    BadFrame(BadFrame),
}

// What came of a frame, or why it is not heard.
pub type Hearing = Result<Effect, NotHeard>;

// In how many records the challenger took the address, or why no time passed.
pub type Pausing = Result<u8, BadTable>;

// The NAME of who has an address, if somebody has, or why that is not told.
pub type LookedUp = Result<Option<u64>, BadTable>;

// The address that a NAME has, if it has one, or why that is not told.
pub type FoundAddress = Result<Option<u8>, BadTable>;

// Who challenges the holder of an address, if somebody does, or why that is not told.
pub type FoundChallenger = Result<Option<Challenger>, BadTable>;

// A claim: who sends it, and its NAME.
#[derive(Clone, Copy)]
struct Claim {
    source: u8,
    name: u64,
}

impl Refusal for BadTable {
    ghost number = { number_of_bad_table };

    fn refusal(self) -> u8 {
        match self {
            BadTable::TableTooShort => 1,
            BadTable::BrokenState => 2,
        }
    }
}

impl Refusal for NotHeard {
    ghost number = { number_of_not_heard };

    fn refusal(self) -> u8 {
        match self {
            NotHeard::TableTooShort => 1,
            NotHeard::BrokenState => 2,
            NotHeard::BadFrame(why) => why.refusal(),
        }
    }
}

impl From<BadTable> for NotHeard {
    ghost from_gives = { λ why answer. answer ≡ not_heard_for why };

    fn from(why: BadTable) -> NotHeard {
        match why {
            BadTable::TableTooShort => NotHeard::TableTooShort,
            BadTable::BrokenState => NotHeard::BrokenState,
        }
    }
}

impl From<BadFrame> for NotHeard {
    ghost from_gives = { λ why answer. answer ≡ BadFrame why };

    fn from(why: BadFrame) -> NotHeard {
        NotHeard::BadFrame(why)
    }
}

// Gives a table to start from: nobody has an address. Lend it to the other calls, or a longer one that begins with it.
pub fn empty() -> [Node; RECORDS]
    ensures { Empty result }
{
    [records::absent(); RECORDS]
}

// Hears one frame. Refusals 1, 2 and 3 to 6 leave the table as it is, and so does a frame that is no claim: it is
// nothing to do. A claim clears its NAME from the records of all other addresses: one that it held goes to its
// challenger, or to nobody. At its own address the holder's claim ends a challenge; another NAME takes the record from
// a higher one or from nobody, and challenges a lower one, unless a lower NAME than its own does. Let the table hear
// every frame that comes, and the claims that you send yourself.
pub fn hear(table: &mut [Node], id: u32, bytes: &[u8]) -> Hearing
    ensures { Hear table.old id bytes.now result table.new }
{
    records::judge(table)?; // 1 and 2 come first
    let checked = frame::check(id, bytes);
    let parts = checked.verdict?;
    if parts.dgn != standard::CLAIM {
        return Ok(Effect::NothingToDo);
    }
    let claim = Claim {
        source: parts.source,
        name: frame::number_of(checked.bytes),
    };
    let effect = records::effect(&table[..RECORDS], claim);
    records::claim_all(&mut table[..RECORDS], claim);
    Ok(effect)
}

// Passes so many milliseconds since the last pause: every challenger waits so much longer, and one that has waited 250
// ms takes its record. The answer is in how many records that was so. Refusals 1 and 2 leave the table as it is.
pub fn pause(table: &mut [Node], ms: u16) -> Pausing
    ensures { Pause table.old ms result table.new }
{
    records::judge(table)?; // nothing else is refused
    let count = records::replaced(&table[..RECORDS], ms);
    records::pause_all(&mut table[..RECORDS], ms);
    Ok(count)
}

// Looks up who has an address: the holder, until a challenger takes the record. Above 253 nobody has one. Refusals 1
// and 2. Only reads the table.
#[tactic(auto, using(crate::proofs::Call::judged_passes))]
pub fn look_up(table: &[Node], address: u8) -> LookedUp
    ensures { LookUp table.now address result }
{
    records::judge(table)?;
    Ok(records::holder(&table[..RECORDS], address))
}

// Finds the address that a NAME has: that of the one record present with it. A challenger has none yet. Refusals 1 and
// 2. Only reads the table.
#[tactic(auto, using(crate::proofs::Call::judged_passes))]
pub fn find_address(table: &[Node], name: u64) -> FoundAddress
    ensures { FindAddress table.now name result }
{
    records::judge(table)?; // before the NAME is looked for
    Ok(records::address(&table[..RECORDS], name))
}

// Finds out who challenges the holder of an address, and for how many milliseconds it has, up to 249. Above 253 nobody
// does. Refusals 1 and 2. Only reads the table.
#[tactic(auto, using(crate::proofs::Call::judged_passes))]
pub fn find_challenger(table: &[Node], address: u8) -> FoundChallenger
    ensures { FindChallenger table.now address result }
{
    records::judge(table)?;
    Ok(records::challenger(&table[..RECORDS], address))
}
