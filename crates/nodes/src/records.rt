// The records of a table: whether they keep the rules, what is found in them, and what an event makes of each.
// They are a slice of the lent table, and that there are 254 is asked for: with an array, `hear` and `pause` would have
// to test the length again that `judge` has tested.
ghost use Rattle.std.specs.Prelude.{◌≡◌, length, count_by};
ghost use Rattle.words.specs.Words.{◌and◌, gives, done};
ghost use Rattle.words.specs.Lists.{any, every, first, no_two};
ghost use Rattle.nodes.specs.Table.{addresses, absent as absentNode, held as heldBy, unchallenged_of, vacated_of};
ghost use Rattle.nodes.specs.Table.{has_name};
ghost use Rattle.nodes.specs.Table.{is_challenged, has_challenger, stands as stands_for, gives_way, may_challenge};
ghost use Rattle.nodes.specs.Table.{cleared_of, entered_of, claimed_here, claimed_at, paused_at, is_replaced};
ghost use Rattle.nodes.specs.Table.{claimed_of, paused_of, replaced_in, sound_challenge, sound_record, shares_name};
ghost use Rattle.nodes.specs.Table.{keeps_rules};
ghost use Rattle.nodes.specs.Call.{table_or, claim_outcome, holder_at, rival_at};
ghost use Rattle.nodes.specs.Promises.{outcome_in, holder_in, rival_in};
ghost use Rattle.nodes.specs.Private.{told_table, Changes};

use crate::{BadTable, Challenger, Claim, Effect, Node, RECORDS, TAKES_AFTER};
use frame::standard::GREATEST_ADDRESS;

// Judges a table by itself: it has a record for each address, and they keep the rules.
pub fn judge(table: &[Node]) -> Result<(), BadTable>
    ensures { told_table result ≡ table_or table.now (gives done) }
{
    if table.len() < RECORDS {
        return Err(BadTable::TableTooShort);
    }
    if !keeps_rules(&table[..RECORDS]) {
        return Err(BadTable::BrokenState);
    }
    Ok(())
}

// What comes of a claim.
#[tactic(auto, unfolding(crate::specs::Call::claim_outcome))]
pub fn effect(records: &[Node], claim: Claim) -> Effect
    requires { length records.now ≡ addresses }
    ensures { outcome_in result ≡ claim_outcome records.now claim }
{
    let source = claim.source;
    if GREATEST_ADDRESS < source {
        return Effect::Silent;
    }
    let before = cleared(records[usize::from(source)], claim.name);
    if gives_way(before, claim.name) {
        return Effect::Taken(source);
    }
    if may_challenge(before, claim.name) {
        return Effect::Challenges(source);
    }
    Effect::HeldByLower(source)
}

// What a claim makes of the record of each address.
pub fn claim_all(records: &mut [Node], claim: Claim)
    requires { length records.old ≡ addresses }
    ensures { records.new ≡ claimed_of claim records.old }
{
    change(
        records,
        |address, n|
            ensures { result ≡ claimed_at claim address n }
        { claimed(n, address, claim) },
    );
}

// In how many records the challenger takes the address in a pause.
pub fn replaced(records: &[Node], ms: u16) -> u8
    requires { length records.now ≡ addresses }
    ensures { result ≡ replaced_in ms records.now }
{
    count_replaced(records, ms) as u8
}

fn count_replaced(records: &[Node], ms: u16) -> usize
    ensures { result ≡ count_by (is_replaced ms) records.now }
{
    records.iter().filter(|n| replaces(**n, ms)).count()
}

// What a pause makes of the record of each address.
pub fn pause_all(records: &mut [Node], ms: u16)
    requires { length records.old ≡ addresses }
    ensures { records.new ≡ paused_of ms records.old }
{
    change(
        records,
        |_address, n|
            ensures { result ≡ paused_at ms n }
        { paused(n, ms) },
    );
}

// The one pass over the lent records: each becomes what a version on values makes of it and its address.
fn change<F: Fn(usize, Node) -> Node>(records: &mut [Node], after: F)
    requires { F.IsAlwaysCallable after }
    ensures { Changes (F.post after) records.old records.new }
{
    for (address, record) in records.iter_mut().enumerate() {
        *record = after(address, *record);
    }
}

// Who holds an address.
pub fn holder(records: &[Node], address: u8) -> Option<u64>
    requires { length records.now ≡ addresses }
    ensures { holder_in result ≡ holder_at address records.now }
{
    if GREATEST_ADDRESS < address {
        return None;
    }
    let n = records[usize::from(address)];
    if n.present { Some(n.name) } else { None }
}

// Who challenges the holder of an address.
pub fn challenger(records: &[Node], address: u8) -> Option<Challenger>
    requires { length records.now ≡ addresses }
    ensures { rival_in result ≡ rival_at address records.now }
{
    if address > GREATEST_ADDRESS {
        return None;
    }
    let n = records[usize::from(address)];
    if is_challenged(n) {
        Some(Challenger {
            name: n.challenger,
            wait: n.wait,
        })
    } else {
        None
    }
}

// The first address whose record has the NAME: in its arm the position is known to fit.
pub fn address(records: &[Node], name: u64) -> Option<u8>
    requires { length records.now ≡ addresses }
    ensures { result ≡ first (has_name name) records.now }
{
    match position(records, name) {
        Some(address) => Some(address as u8),
        None => None,
    }
}

fn position(records: &[Node], name: u64) -> Option<usize>
    ensures { result ≡ first (has_name name) records.now }
{
    records.iter().position(|n| has_name(*n, name))
}

// What the record of an address becomes by a claim: the NAME is cleared, but from its own address, where it is entered.
#[tactic(auto, unfolding(crate::specs::Table::claimed_at))]
fn claimed(n: Node, address: usize, claim: Claim) -> Node
    ensures { result ≡ claimed_at claim address n }
{
    if address == usize::from(claim.source) {
        claimed_here(n, claim.name)
    } else {
        cleared(n, claim.name)
    }
}

// What the record becomes whose address is claimed: its holder again, without a challenger; or another NAME is entered,
// which is cleared first, for it may be the challenger.
#[tactic(auto, unfolding(crate::specs::Table::claimed_here))]
fn claimed_here(before: Node, name: u64) -> Node
    ensures { result ≡ claimed_here name before }
{
    if has_name(before, name) {
        unchallenged(before)
    } else {
        entered(cleared(before, name), name)
    }
}

// The record without a NAME: where it was the holder the challenger takes over, and where it challenged it does no
// more.
#[tactic(auto, unfolding(crate::specs::Table::cleared_of))]
fn cleared(n: Node, name: u64) -> Node
    ensures { result ≡ cleared_of name n }
{
    if has_name(n, name) {
        return vacated(n);
    }
    if has_challenger(n, name) {
        return unchallenged(n);
    }
    n
}

// The record after its holder has gone.
#[tactic(auto, unfolding(crate::specs::Table::vacated_of))]
fn vacated(n: Node) -> Node
    ensures { result ≡ vacated_of n }
{
    if is_challenged(n) {
        held(n.challenger)
    } else {
        absent()
    }
}

// The record with a NAME that claims its address.
#[tactic(auto, unfolding(crate::specs::Table::entered_of))]
fn entered(n: Node, name: u64) -> Node
    ensures { result ≡ entered_of name n }
{
    if gives_way(n, name) {
        return held(name);
    }
    if may_challenge(n, name) {
        return Node {
            challenger: name,
            wait: 0, // from now on
            ..n
        };
    }
    n
}

// The record after a pause. A wait of 249 and a pause of 65,535 do not fit 16 bits, and the sum stops there.
#[tactic(auto, unfolding(crate::specs::Table::paused_at))]
fn paused(n: Node, ms: u16) -> Node
    ensures { result ≡ paused_at ms n }
{
    if !is_challenged(n) {
        return n;
    }
    let wait = n.wait.saturating_add(ms);
    if TAKES_AFTER <= wait {
        return held(n.challenger);
    }
    Node { wait, ..n }
}

// Whether the challenger takes the record in a pause.
#[tactic(auto, unfolding(crate::specs::Table::is_replaced))]
fn replaces(n: Node, ms: u16) -> bool
    ensures { result ≡ is_replaced ms n }
{
    is_challenged(n) && TAKES_AFTER <= n.wait.saturating_add(ms)
}

pub fn absent() -> Node
    ensures { result ≡ absentNode }
{
    Node {
        present: false,
        name: 0,
        challenger: 0,
        wait: 0,
    }
}

fn held(name: u64) -> Node
    ensures { result ≡ heldBy name }
{
    Node {
        present: true,
        name,
        challenger: 0,
        wait: 0,
    }
}

#[tactic(auto, unfolding(crate::specs::Table::unchallenged_of))]
fn unchallenged(n: Node) -> Node
    ensures { result ≡ unchallenged_of n }
{
    Node {
        challenger: 0,
        wait: 0,
        ..n
    }
}

#[tactic(auto, unfolding(crate::specs::Table::has_name))]
fn has_name(n: Node, name: u64) -> bool
    ensures { result ≡ has_name name n }
{
    n.present && n.name == name
}

#[tactic(auto, unfolding(crate::specs::Table::is_challenged))]
fn is_challenged(n: Node) -> bool
    ensures { result ≡ is_challenged n }
{
    0 < n.challenger
}

#[tactic(auto, unfolding(crate::specs::Table::has_challenger))]
fn has_challenger(n: Node, name: u64) -> bool
    ensures { result ≡ has_challenger name n }
{
    is_challenged(n) && n.challenger == name
}

// Whether the NAME stands in the record, as the holder or as the challenger.
#[tactic(auto, unfolding(crate::specs::Table::stands))]
fn stands(n: Node, name: u64) -> bool
    ensures { result ≡ stands_for name n }
{
    has_name(n, name) || has_challenger(n, name)
}

#[tactic(auto, unfolding(crate::specs::Table::gives_way))]
fn gives_way(n: Node, name: u64) -> bool
    ensures { result ≡ gives_way name n }
{
    !n.present || name < n.name
}

#[tactic(auto, unfolding(crate::specs::Table::may_challenge))]
fn may_challenge(n: Node, name: u64) -> bool
    ensures { result ≡ may_challenge name n }
{
    !is_challenged(n) || name < n.challenger
}

// The rules of a table.
#[tactic(auto, unfolding(crate::specs::Table::keeps_rules))]
fn keeps_rules(records: &[Node]) -> bool
    ensures { result ≡ keeps_rules records.now }
{
    sound_records(records) && names_once(records)
}

// Whether no NAME stands in two records, each pair of which is compared once.
fn names_once(records: &[Node]) -> bool
    ensures { result ≡ no_two shares_name records.now }
{
    let mut rest = records;
    while let Some((n, others)) = rest.split_first() {
        if stands_again(*n, others) {
            return false;
        }
        rest = others;
    }
    true
}

// Whether a NAME of the record stands in another: its holder's, or its challenger's.
#[tactic(auto, using(crate::proofs::Rules::again_is))]
fn stands_again(n: Node, others: &[Node]) -> bool
    ensures { result ≡ any (shares_name n) others.now }
{
    holder_again(n, others) || challenger_again(n, others)
}

// Who is absent is looked for nowhere.
fn holder_again(n: Node, others: &[Node]) -> bool
    ensures { result ≡ n.present and any (stands_for n.name) others.now }
{
    n.present && stands_in(others, n.name)
}

// Nor is who does not challenge.
fn challenger_again(n: Node, others: &[Node]) -> bool
    ensures { result ≡ is_challenged n and any (stands_for n.challenger) others.now }
{
    is_challenged(n) && stands_in(others, n.challenger)
}

fn stands_in(records: &[Node], name: u64) -> bool
    ensures { result ≡ any (stands_for name) records.now }
{
    records.iter().any(|n| stands(*n, name))
}

fn sound_records(records: &[Node]) -> bool
    ensures { result ≡ every sound_record records.now }
{
    records.iter().all(|n| sound_record(*n))
}

#[tactic(auto, unfolding(crate::specs::Table::sound_record))]
fn sound_record(n: Node) -> bool
    ensures { result ≡ sound_record n }
{
    if n.present {
        sound_challenge(n)
    } else {
        n.name == 0 && n.challenger == 0 && n.wait == 0
    }
}

#[tactic(auto, unfolding(crate::specs::Table::sound_challenge))]
fn sound_challenge(n: Node) -> bool
    ensures { result ≡ sound_challenge n }
{
    if is_challenged(n) {
        n.name < n.challenger && n.wait < TAKES_AFTER
    } else {
        n.wait == 0
    }
}
