// The rows that a tile may name, and the rules that a panel's state has to keep.
ghost use Rattle.std.specs.Prelude.{◌≡◌};
ghost use Rattle.catalogue.specs.Packed.{packed_rows};
ghost use Rattle.catalogue.specs.Promises.{told_looked};
ghost use Rattle.tiles.specs.Tile.{is_accepted, is_of, is_blank, is_zero, is_named, tile_keeps_rules};
ghost use Rattle.tiles.specs.Panel.{keeps_rules};

use crate::{Panel, Reading, Tile};
use rvc::fields::{Looked, Row, Unit};

// Whether a tile may name a row: its unit has a scale at its width, and byte 0 of its DGN is an instance.
pub fn is_accepted(row: Row) -> bool
    ensures { result ≡ is_accepted row }
{
    rvc::fields::steps_in_one(row.unit, row.width) != 0 && rvc::fields::has_instance(row.dgn)
}

// Whether a tile whose row has this unit can show a reading: a number of the unit, or a class.
#[tactic(auto, unfolding(crate::specs::Tile::is_of))]
fn is_of(unit: Unit, reading: Reading) -> bool
    ensures { result ≡ is_of unit reading }
{
    match (reading, unit) {
        (Reading::NoData | Reading::OutOfRange | Reading::Reserved, _) => true,
        (Reading::Degrees(_), Unit::Celsius) => true,
        (Reading::Percent(_), Unit::Percent) => true,
        (Reading::Hertz(_), Unit::Hertz) => true,
        (Reading::Volts(_), Unit::Volt) => true,
        (Reading::Amperes(_), Unit::Ampere) => true,
        _ => false,
    }
}

// Whether a tile names no row.
pub fn is_blank(t: Tile) -> bool
    ensures { result ≡ is_blank t }
{
    matches!(t.reading, Reading::Blank)
}

// Whether row and instance of a tile are 0.
#[tactic(auto, unfolding(crate::specs::Tile::is_zero))]
fn is_zero(t: Tile) -> bool
    ensures { result ≡ is_zero t }
{
    t.row == 0 && t.instance == 0
}

// Whether a tile can name a row that was looked up, and show its reading.
#[tactic(auto, unfolding(crate::specs::Tile::is_named))]
fn is_named(looked: Looked, reading: Reading) -> bool
    ensures { result ≡ is_named (told_looked looked) reading }
{
    match looked {
        Ok(row) => is_accepted(row) && is_of(row.unit, reading),
        Err(_) => false,
    }
}

// Whether a tile keeps its rules.
fn tile_keeps_rules(table: &[u64], t: Tile) -> bool
    requires { table.now ≡ packed_rows }
    ensures { result ≡ tile_keeps_rules t }
{
    if is_blank(t) {
        return is_zero(t);
    }
    is_named(rvc::fields::row_in(table, t.row), t.reading)
}

// Whether each tile keeps its rules.
#[tactic(auto, unfolding(crate::specs::Panel::keeps_rules))]
pub fn keep_rules(p: Panel) -> bool
    ensures { result ≡ keeps_rules p }
{
    let table = rvc::fields::packed_rows();
    p.tiles.iter().all(|t| tile_keeps_rules(&table, *t))
}
