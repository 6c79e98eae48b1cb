// A wall panel of 32 tiles (RULES 18). Each tile names a row of the catalogue and an instance, and keeps what the
// latest frame said of them. It stands above the library, of which it uses public calls and their promises alone.
#![tactic(auto)]

mod frames;
mod readings;
mod rules;

ghost use Rattle.std.specs.Prelude.{◌≡◌, ◌<◌};
ghost use Rattle.tiles.specs.Tile.{blank_tile, fresh_tile};
ghost use Rattle.tiles.specs.Panel.{replacing};
ghost use Rattle.tiles.specs.Private.{named_beside, heard_beside};
ghost use Rattle.tiles.specs.Promises.{New, Name, Hear, ReadTile, number_of_not_named, number_of_not_heard};
ghost use Rattle.tiles.specs.Promises.{number_of_not_shown};

use rvc::Refusal;
use rvc::identifiers::BadFrame;

// A panel has 32 tiles, with numbers from 0.
pub const TILES: usize = 32;

// What a tile shows: a number in the unit of its row, or the class where there is none. Degrees (°C), percent and hertz
// are single-precision numbers and exact; volts and amperes are counted in twentieths.
#[derive(Clone, Copy)]
pub enum Reading {
    // The tile names no row.
    Blank,
    NoData,
    OutOfRange,
    Reserved,
    Degrees(f32),
    Percent(f32),
    Hertz(f32),
    Volts(i64),
    Amperes(i64),
}

// A tile: the row that it names by its number in the catalogue, an instance, and the latest reading. Row and instance
// of a blank tile are 0.
#[derive(Clone, Copy)]
pub struct Tile {
    pub row: usize,
    pub instance: u8,
    pub reading: Reading,
}

#[derive(Clone, Copy)]
pub struct Panel {
    pub tiles: [Tile; TILES],
}

// Why a tile is not named: refusals 2, 11, 23, 24.
#[derive(Clone, Copy)]
pub enum NotNamed {
    BrokenState,
    NoSuchRow,
    NoSuchTile,
    RowNotAccepted,
}

// The tile is named, or why not.
pub type Naming = Result<(), NotNamed>;

#[derive(Clone, Copy)]
pub struct Named {
    pub panel: Panel,
    pub answer: Naming,
}

// Why a frame is not heard: refusals 2, 3 to 6.
#[derive(Clone, Copy)]
pub enum NotHeard {
    BrokenState,
    BadFrame(BadFrame),
}

// Which tiles took their reading from the frame: bit k stands for tile k. Or why it is not heard.
pub type Hearing = Result<u32, NotHeard>;

#[derive(Clone, Copy)]
pub struct Heard {
    pub panel: Panel,
    pub answer: Hearing,
}

// Why a tile is not shown: refusals 2, 23.
#[derive(Clone, Copy)]
pub enum NotShown {
    BrokenState,
    NoSuchTile,
}

// What a tile shows, or why not.
pub type Asking = Result<Reading, NotShown>;

impl Refusal for NotNamed {
    ghost number = { number_of_not_named };

    fn refusal(self) -> u8 {
        match self {
            NotNamed::BrokenState => 2,
            NotNamed::NoSuchRow => 11,
            NotNamed::NoSuchTile => 23,
            NotNamed::RowNotAccepted => 24,
        }
    }
}

impl Refusal for NotHeard {
    ghost number = { number_of_not_heard };

    fn refusal(self) -> u8 {
        match self {
            NotHeard::BrokenState => 2,
            NotHeard::BadFrame(why) => why.refusal(),
        }
    }
}

impl Refusal for NotShown {
    ghost number = { number_of_not_shown };

    fn refusal(self) -> u8 {
        match self {
            NotShown::BrokenState => 2,
            NotShown::NoSuchTile => 23,
        }
    }
}

impl Panel {
    // A panel on which every tile is blank.
    pub fn new() -> Panel
        ensures { New result }
    {
        Panel {
            tiles: [blank(); TILES],
        }
    }

    // Names a tile: the number of a row of the catalogue, and an instance. What the tile showed is gone, and it shows
    // no-data until a frame says more; a tile can be named anew at any time. Refusals 2, 11 where the catalogue has no
    // such row, 23 where the panel has no such tile, 24 where the row is not accepted: its unit has no scale at its
    // width, or byte 0 of its DGN is no instance. They change nothing.
    pub fn name(self, tile: usize, row: usize, instance: u8) -> Named
        ensures { Name tile row instance self result }
    {
        if !rules::keep_rules(self) {
            return unnamed(self, Err(NotNamed::BrokenState));
        }
        let Ok(found) = rvc::fields::row_at(row) else {
            return unnamed(self, Err(NotNamed::NoSuchRow));
        };
        if TILES <= tile {
            return unnamed(self, Err(NotNamed::NoSuchTile));
        }
        if !rules::is_accepted(found) {
            return unnamed(self, Err(NotNamed::RowNotAccepted));
        }
        Named {
            panel: replace(self, tile, fresh(row, instance)),
            answer: Ok(()),
        }
    }

    // Hears a frame: each tile that names a row of its DGN, and has the instance in its byte 0, shows what the frame
    // says from then on. The answer is those tiles, bit k for tile k, also where one shows what it showed before; no
    // other tile is altered. Refusals 2, 3 to 6; they change nothing.
    pub fn hear(self, id: u32, bytes: &[u8]) -> Heard
        ensures { Hear id bytes.now self result }
    {
        if !rules::keep_rules(self) {
            return unheard(self, Err(NotHeard::BrokenState));
        }
        let checked = rvc::identifiers::check(id, bytes);
        match checked.verdict {
            Err(why) => unheard(self, Err(NotHeard::BadFrame(why))),
            Ok(parts) => frames::hear(self, parts.dgn, checked.bytes[0], id, bytes),
        }
    }

    // What a tile shows. Refusals 2, 23 where the panel has no such tile.
    pub fn reading(self, tile: usize) -> Asking
        ensures { ReadTile tile self result }
    {
        if !rules::keep_rules(self) {
            return Err(NotShown::BrokenState);
        }
        if TILES <= tile {
            return Err(NotShown::NoSuchTile);
        }
        Ok(self.tiles[tile].reading)
    }
}

// A tile that names no row.
fn blank() -> Tile
    ensures { result ≡ blank_tile }
{
    Tile {
        row: 0,
        instance: 0,
        reading: Reading::Blank,
    }
}

// A tile that was just named.
fn fresh(row: usize, instance: u8) -> Tile
    ensures { result ≡ fresh_tile row instance }
{
    Tile {
        row,
        instance,
        reading: Reading::NoData,
    }
}

// One tile replaced.
fn replace(p: Panel, at: usize, t: Tile) -> Panel
    requires { at < 32 }
    ensures { result ≡ replacing p at t }
{
    let mut q = p;
    q.tiles[at] = t;
    q
}

// The panel as it was, beside a refusal.
fn unnamed(p: Panel, answer: Naming) -> Named
    ensures { result ≡ named_beside p answer }
{
    Named { panel: p, answer }
}

fn unheard(p: Panel, answer: Hearing) -> Heard
    ensures { result ≡ heard_beside p answer }
{
    Heard { panel: p, answer }
}
