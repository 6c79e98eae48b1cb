// What a frame makes of the tiles.
ghost use Rattle.std.specs.Prelude.{◌≡◌, true, ◌+◌, ◌*◌, ◌^◌, ◌<◌};
ghost use Rattle.words.specs.Words.{◌=?◌};
ghost use Rattle.frame.specs.Identifier.{catalogue_form};
ghost use Rattle.catalogue.specs.Packed.{packed_rows};
ghost use Rattle.catalogue.specs.Promises.{told_looked};
ghost use Rattle.tiles.specs.Tile.{of_dgn, matches, reading_in, tile_keeps_rules, heard_by};
ghost use Rattle.tiles.specs.Panel.{keeps_rules, bit_of, mask_of, heard_by_all};
ghost use Rattle.tiles.specs.Private.{IsSound, ReadsOf, heard_as};

use crate::{Heard, Panel, Reading, TILES, Tile, readings, rules};
use rvc::fields::{Looked, Row};

// A frame that is not refused by itself, as the tiles hear it: beside it the catalogue's rows, its DGN in their form,
// and its byte 0.
#[derive(Clone, Copy)]
struct Frame<'a> {
    rows: &'a [u64],
    dgn: u32,
    instance: u8,
    id: u32,
    bytes: &'a [u8],
}

// Whether a row was found, and its DGN is this one.
#[tactic(auto, unfolding(crate::specs::Tile::of_dgn))]
fn is_of_dgn(looked: Looked, dgn: u32) -> bool
    ensures { result ≡ of_dgn (told_looked looked) dgn }
{
    match looked {
        Ok(row) => row.dgn == dgn,
        Err(_) => false,
    }
}

// Whether a tile has this instance. Zero is an instance as any other.
fn is_of_instance(t: Tile, instance: u8) -> bool
    ensures { result ≡ (t.instance =? instance) }
{
    t.instance == instance
}

// Whether a frame is for a tile: it has the tile's instance in byte 0, and the DGN of the tile's row.
fn matches(frame: Frame, t: Tile) -> bool
    requires { frame.rows.now ≡ packed_rows }
    ensures { result ≡ matches frame.entry.dgn frame.entry.instance t }
{
    if rules::is_blank(t) || !is_of_instance(t, frame.instance) {
        return false;
    }
    is_of_dgn(rvc::fields::row_in(frame.rows, t.row), frame.dgn)
}

// What a frame says of a row.
fn reading_in(row: Row, id: u32, bytes: &[u8]) -> Reading
    requires { ReadsOf row id bytes.now }
    ensures { result ≡ reading_in row bytes.now }
{
    match rvc::fields::read_row_scaled(row, id, bytes) {
        Ok(value) => readings::shown(row.unit, value),
        Err(_) => Reading::NoData,
    }
}

// What a frame makes of a tile.
fn heard_by(frame: Frame, t: Tile) -> Tile
    requires rows_held { frame.rows.now ≡ packed_rows }
    requires frame_sound { IsSound frame.id frame.bytes.now frame.dgn frame.instance }
    requires tile_sound { tile_keeps_rules t ≡ true }
    ensures { result ≡ heard_by frame.entry.dgn frame.entry.bytes.now t }
{
    if !matches(frame, t) {
        return t;
    }
    match rvc::fields::row_in(frame.rows, t.row) {
        Err(_) => t,
        Ok(row) => {
            let reading = reading_in(row, frame.id, frame.bytes);
            Tile { reading, ..t }
        }
    }
}

// What a frame makes of every tile.
fn heard_by_all(frame: Frame, p: Panel) -> Panel
    requires rows_held { frame.rows.now ≡ packed_rows }
    requires frame_sound { IsSound frame.id frame.bytes.now frame.dgn frame.instance }
    requires panel_sound { keeps_rules p ≡ true }
    ensures { result ≡ heard_by_all frame.entry.dgn frame.entry.bytes.now p }
{
    let mut tiles = p.tiles;
    for t in &mut tiles {
        *t = heard_by(frame, *t);
    }
    Panel { tiles }
}

// Which tiles a frame is for, bit k for tile k: from the last tile down.
fn mask(frame: Frame, p: Panel) -> u32
    requires { frame.rows.now ≡ packed_rows }
    ensures { result ≡ mask_of (matches frame.entry.dgn frame.entry.instance) p.tiles }
{
    let mut mask = 0;
    for i in (0..TILES).rev() {
        let t = p.tiles[i];
        mask = with_bit(mask, matches(frame, t));
    }
    mask
}

// A bit more, below the others.
fn with_bit(mask: u32, bit: bool) -> u32
    requires { mask < 2 ^ 31 }
    ensures { result ≡ bit_of bit + 2 * mask }
{
    2 * mask + u32::from(bit)
}

// A frame that is not refused by itself: its DGN, its byte 0, and the frame.
pub fn hear(p: Panel, dgn: u32, instance: u8, id: u32, bytes: &[u8]) -> Heard
    requires frame_sound { IsSound id bytes.now (catalogue_form dgn) instance }
    requires panel_sound { keeps_rules p ≡ true }
    ensures { result ≡ heard_as (catalogue_form dgn) bytes.now p }
{
    let table = rvc::fields::packed_rows();
    let frame = Frame {
        rows: &table,
        dgn: rvc::identifiers::catalogue_form(dgn),
        instance,
        id,
        bytes,
    };
    let mask = mask(frame, p);
    Heard {
        panel: heard_by_all(frame, p),
        answer: Ok(mask),
    }
}
