// Where the next token of a report stands, and the bytes of a token.
#![tactic(auto)]

mod classes;

ghost use Rattle.std.specs.Prelude.{◌≡◌, true, false, ◌-◌, ◌≤◌, take, drop};
ghost use Rattle.places.specs.Moves.{position, move, next_in, next_within};
ghost use Rattle.places.specs.InternalFind.{Room, RunEnd, Past, Skipped};

use byte_class::{Class, class_of};
use classes::{column_by, passed_by, run_class, run_width};

// An offset with its column, and whether the line there has had a token.
#[derive(Clone, Copy, Debug, PartialEq, Eq)]
pub struct Position {
    pub offset: usize,
    pub column: u32,
    pub mark: bool,
}

impl Position {
    // The start of a report.
    pub const START: Position = Position {
        offset: 0,
        column: 0,
        mark: false,
    };
}

// A token's place: its column, offset and length, and whether it is the end of a line.
#[derive(Clone, Copy, Debug, PartialEq, Eq)]
pub struct Place {
    pub ends: bool,
    pub column: u32,
    pub offset: usize,
    pub length: usize,
}

// The next token's place, if there is one, and the position behind it.
#[derive(Clone, Copy, Debug, PartialEq, Eq)]
pub struct Move {
    pub found: Option<Place>,
    pub reached: Position,
}

// Behind the bytes 32 at a position. Indented lines and tables have many, so they have a loop of their own.
fn past_blanks(report: &[u8], from: Position) -> Position
    requires { Room report.now from.offset from.column }
    ensures { Past report.now from result }
{
    let mut column = from.column;
    for offset in from.offset..report.len() {
        if report[offset] != b' ' {
            return Position {
                offset,
                column,
                ..from
            };
        }
        column += 1;
    }
    Position {
        offset: report.len(),
        column,
        ..from
    }
}

// The first position from one on whose byte is not passed over, or the end.
#[inline(always)]
fn skip(report: &[u8], from: Position) -> Position
    requires { Room report.now from.offset from.column }
    ensures { Skipped report.now from result }
{
    let start = past_blanks(report, from);
    let mut column = start.column;
    for offset in start.offset..report.len() {
        let class = class_of(report[offset]);
        if !passed_by(class, start.mark) {
            return Position {
                offset,
                column,
                ..start
            };
        }
        column = column_by(class, column);
    }
    Position {
        offset: report.len(),
        column,
        ..start
    }
}

// Where the run that is at a position, or goes on there, ends.
fn run_end(report: &[u8], from: Position) -> Position
    requires { Room report.now from.offset from.column }
    ensures { RunEnd report.now from result }
{
    let mut column = from.column;
    for offset in from.offset..report.len() {
        let b = report[offset];
        if !run_class(class_of(b)) {
            return Position {
                offset,
                column,
                ..from
            };
        }
        column += run_width(b);
    }
    Position {
        offset: report.len(),
        column,
        ..from
    }
}

// The next token's place from a position on; nothing, and the position itself, where the offset is past the report or its
// columns have no room. `inline`, here and at `skip` and `find_within`, spares a scan a call for each token.
#[inline(always)]
pub fn find(report: &[u8], from: Position) -> Move
    ensures { result ≡ next_within report.now from }
{
    let room = (u32::MAX - from.column) / 8;
    if report.len() < from.offset || (room as usize) < report.len() - from.offset {
        return nothing(from);
    }
    find_within(report, from)
}

// The next token's place where there is room.
#[tactic(auto, using(crate::proofs::FindLaws::found_end, crate::proofs::FindLaws::found_run))]
#[inline(always)]
fn find_within(report: &[u8], from: Position) -> Move
    requires { Room report.now from.offset from.column }
    ensures { result ≡ next_in report.now from }
{
    let here = skip(report, from);
    if here.offset == report.len() {
        return if here.mark {
            line_end(here, here)
        } else {
            nothing(here)
        };
    }
    let class = class_of(report[here.offset]);
    let behind = Position {
        offset: here.offset + 1,
        column: column_by(class, here.column),
        mark: true,
    };
    match class {
        Class::Break => line_end(here, behind),
        Class::Single => spelling(here, behind),
        _ => spelling(here, run_end(report, behind)),
    }
}

// Nothing at a position.
fn nothing(at: Position) -> Move
    ensures { result ≡ record { found = None; reached = at } }
{
    Move {
        found: None,
        reached: at,
    }
}

// The end of a line, and the position behind it.
fn line_end(at: Position, behind: Position) -> Move
    ensures { result ≡ move true at.column at.offset 0 (position behind.offset behind.column false) }
{
    let place = Place {
        ends: true,
        column: at.column,
        offset: at.offset,
        length: 0,
    };
    Move {
        found: Some(place),
        reached: Position {
            mark: false,
            ..behind
        },
    }
}

// A single byte or a run, and the position behind it.
fn spelling(at: Position, behind: Position) -> Move
    requires { at.offset ≤ behind.offset }
    ensures { result ≡ move false at.column at.offset (behind.offset - at.offset) behind }
{
    let place = Place {
        ends: false,
        column: at.column,
        offset: at.offset,
        length: behind.offset - at.offset,
    };
    Move {
        found: Some(place),
        reached: behind,
    }
}

// The bytes of the token at a place, as a part of the report; what lies past the report is left out.
pub fn bytes_at(report: &[u8], place: Place) -> &[u8]
    ensures { result.now ≡ take place.length (drop place.offset report.now) }
{
    let from = place.offset.min(report.len());
    let n = place.length;
    let end = n.min(report.len() - from) + from;
    &report[from..end]
}
