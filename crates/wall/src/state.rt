// What the wall keeps: the tiles of the library, and beside each its name and how long ago it was heard.
use crate::tile_line::{NAME_BYTES, TileLine};
use tiles::{Hearing, Naming, Panel, TILES};

// A tile is stale once it was not heard for more than so many milliseconds.
const STALE_AFTER: u32 = 5000;

// Beside a tile: its name, filled up with spaces, and the milliseconds since the last frame for it, counted until they
// make it stale; none where no frame came since it was named.
#[derive(Clone, Copy)]
pub struct Label {
    pub name: [u8; NAME_BYTES],
    pub silence: Option<u32>,
}

// The tiles, and the label of each.
#[derive(Clone, Copy)]
pub struct Wall {
    pub panel: Panel,
    pub labels: [Label; TILES],
}

// The wall after a line, and what the library answered.
#[derive(Clone, Copy)]
pub struct Step<A> {
    pub wall: Wall,
    pub answer: A,
}

// A wall on which no tile is named.
pub fn new() -> Wall {
    Wall {
        panel: Panel::new(),
        labels: [fresh([b' '; NAME_BYTES]); TILES],
    }
}

// Names a tile, as its line says. It counts as never heard from then on.
pub fn name(wall: Wall, line: TileLine) -> Step<Naming> {
    let panel = wall.panel;
    let labels = wall.labels;
    let named = panel.name(line.tile, row_number(line.dgn, line.bit), line.instance);
    let panel = named.panel;
    let answer = named.answer;
    let name = line.name;
    Step {
        wall: Wall {
            panel,
            labels: relabel(labels, answer, line.tile, name),
        },
        answer,
    }
}

// Time passes for every tile.
pub fn pause(wall: Wall, gap: u16) -> Wall {
    let panel = wall.panel;
    let mut labels = wall.labels;
    for label in &mut labels {
        *label = waited(*label, gap);
    }
    Wall { panel, labels }
}

// Hears a frame: the tiles that it is for are heard just now.
pub fn hear(wall: Wall, id: u32, bytes: [u8; 8]) -> Step<Hearing> {
    let panel = wall.panel;
    let labels = wall.labels;
    let heard = panel.hear(id, &bytes);
    let panel = heard.panel;
    let answer = heard.answer;
    Step {
        wall: Wall {
            panel,
            labels: mark(labels, answer.unwrap_or(0)),
        },
        answer,
    }
}

// Whether the last frame is too long ago.
pub fn is_stale(silence: u32) -> bool {
    STALE_AFTER < silence
}

// The label of a tile that was just named.
fn fresh(name: [u8; NAME_BYTES]) -> Label {
    Label {
        name,
        silence: None,
    }
}

// The number of the catalogue's row with this DGN and first bit; where there is none, a number that no row has.
fn row_number(dgn: u32, bit: u32) -> usize {
    let span = rvc::fields::rows_of(dgn);
    for i in 0..span.count {
        let row = std::num::wrapping_add_usize(span.start, i);
        if begins_at(row, bit) {
            return row;
        }
    }
    rvc::fields::rows()
}

// Whether there is a row with this number, and it begins at this bit.
fn begins_at(row: usize, bit: u32) -> bool {
    match rvc::fields::row_at(row) {
        Ok(row) => u32::from(row.first) == bit,
        Err(_) => false,
    }
}

// The labels after a tile was to be named: where that is refused, they stay. A tile that is named is one of the
// panel's; the test before the store says so once more, where the store needs it.
fn relabel(
    labels: [Label; TILES],
    answer: Naming,
    tile: usize,
    name: [u8; NAME_BYTES],
) -> [Label; TILES] {
    let mut labels = labels;
    if answer.is_ok() && tile < TILES {
        labels[tile] = fresh(name);
    }
    labels
}

// A label after a pause. What is stale stays so, and is not counted on.
fn waited(label: Label, gap: u16) -> Label {
    match label.silence {
        Some(silence) if silence <= STALE_AFTER => Label {
            silence: Some(silence + u32::from(gap)),
            ..label
        },
        _ => label,
    }
}

// The tiles of a mask, bit k for tile k, are heard just now.
fn mark(labels: [Label; TILES], mask: u32) -> [Label; TILES] {
    let mut labels = labels;
    let mut rest = mask;
    for label in &mut labels {
        if rest % 2 == 1 {
            *label = heard_now(*label);
        }
        rest /= 2;
    }
    labels
}

// The label of a tile that a frame was for.
fn heard_now(label: Label) -> Label {
    Label {
        silence: Some(0),
        ..label
    }
}
