// The tables that a read is in, and its next move.
ghost use Rattle.std.specs.Prelude.{◌≡◌, ℕ, ◌-◌, ◌<◌, ◌≤◌, get_or, List};
ghost use Rattle.gsub.specs.declared.Mode.TheVariants.{Promoted, New};
ghost use Rattle.gsub.specs.Meaning.{deepest};
ghost use Rattle.gsub_rows.specs.Fields.{most_width, Narrow};
ghost use Rattle.gsub_walk.specs.Rest.{Standing, FrameOk, no_frame, frame_of, next_of, advanced, entered, left, MovesBy, NextIs, AsIs, begun_at};

use crate::judge::{judge, lies_in};
use crate::modes::child_mode;
use gsub::{Act, EXTENSION_SIZE, Field, Kind, Mode, NEW};
use gsub_rows::fields::next_in;

// Header, LookupList, Lookup, Extension, a subtable, a set, a rule: none lies deeper.
const DEEPEST: usize = 7;

// The lookupType of a promoted Lookup, and where NEW has it: an Extension's type stands behind its format.
const EXTENSION: usize = 7;

const TYPE: usize = EXTENSION_SIZE * EXTENSION + 2;

// A table: how it is read, its kind and place, the number of its next field, where that lies in it, and the width of the field before.
#[derive(Clone, Copy)]
pub struct Frame {
    pub mode: Mode,
    pub kind: Kind,
    pub place: usize,
    pub index: usize,
    pub at: usize,
    pub width: usize,
}

impl Frame {
    // A table of which no field is read.
    fn begun(mode: Mode, kind: Kind, place: usize) -> Frame
        ensures { result ≡ frame_of mode kind place }
    {
        Frame {
            mode,
            kind,
            place,
            index: 0,
            at: 0,
            width: 0,
        }
    }

    // Moved behind its next field, of this width.
    fn behind(self, width: usize) -> Frame
        requires { FrameOk self × (width ≤ most_width) }
        ensures { result ≡ next_of self width }
    {
        Frame {
            index: self.index + 1,
            at: self.at + width,
            width,
            ..self
        }
    }
}

// The open tables, the innermost last; `back` where the innermost one's child was just closed.
#[derive(Clone, Copy)]
pub struct Walk {
    pub depth: usize,
    pub back: bool,
    pub frames: [Frame; DEEPEST],
}

// A session call, of a put the bytes' place in the table or in NEW; refusal 15 with its place; or the walk's end.
#[derive(Clone, Copy)]
pub enum Move {
    Begin,
    Put(usize, usize),
    New(usize, usize),
    Link(usize),
    End,
    Stop(usize),
    Done,
}

impl Walk {
    fn innermost(&self) -> Frame
        requires { Standing self.now × (0 < self.now.depth) }
        ensures { result ≡ get_or self.now.frames (self.now.depth - 1) no_frame }
    {
        self.frames[self.depth - 1]
    }

    // The innermost table, f, moved behind a field of this width.
    fn advance(&mut self, f: Frame, width: usize)
        requires { Standing self.old × (0 < self.old.depth) × FrameOk f × (width ≤ most_width) }
        ensures { self.new ≡ advanced self.old f width }
    {
        self.frames[self.depth - 1] = f.behind(width);
        self.back = false;
    }

    // A child's table begun.
    fn enter(&mut self, mode: Mode, kind: Kind, place: usize)
        requires { Standing self.old × (self.old.depth < deepest) }
        ensures { self.new ≡ entered self.old mode kind place }
    {
        self.frames[self.depth] = Frame::begun(mode, kind, place);
        self.depth += 1;
        self.back = false;
    }

    // The innermost table closed.
    fn leave(&mut self)
        requires { 0 < self.old.depth }
        ensures { self.new ≡ left self.old }
    {
        self.depth -= 1;
        self.back = true;
    }
}

// The walk of one table, which is open.
pub fn begun(mode: Mode, kind: Kind, place: usize) -> Walk
    ensures { result ≡ begun_at mode kind place }
{
    Walk {
        depth: 1,
        back: false,
        frames: [Frame::begun(mode, kind, place); DEEPEST],
    }
}

// The next move where g is the next field of f, the innermost table, and stands in the table itself.
fn step_field(table: &[u8], w: &mut Walk, f: Frame, g: Field) -> Move
    requires { NextIs table.now w.old f g × AsIs table.now f g }
    ensures { MovesBy table.now w.old result w.new }
{
    let width = g.width;
    let place = f.place;
    let at = place + f.at;
    match judge(table, at, g) {
        Act::Keep => {
            w.advance(f, width);
            Move::Put(at, width)
        }
        Act::Refuse => Move::Stop(at),
        Act::Follow(kind) => {
            let child = place + big_endian::read(table, at, width) as usize;
            if DEEPEST <= w.depth {
                return Move::Stop(child);
            }
            let mode = child_mode(table, f.mode, place, f.at, kind, child);
            w.advance(f, width);
            w.enter(mode, kind, child);
            Move::Begin
        }
    }
}

// Where f is a promoted Lookup, and g its lookupType.
fn step_type(table: &[u8], w: &mut Walk, f: Frame, g: Field) -> Move
    requires { NextIs table.now w.old f g × (f.mode ≡ Promoted) × (f.index ≡ 0) }
    ensures { MovesBy table.now w.old result w.new }
{
    let width = g.width;
    if !lies_in(table, f.place, width) {
        return Move::Stop(f.place);
    }
    w.advance(f, width);
    Move::New(TYPE, width)
}

// Where f is a new Extension for lookups of this type, whatever the table is.
fn step_new(w: &mut Walk, f: Frame, g: Field, number: usize) -> Move
    requires { Standing w.old × (0 < w.old.depth) × FrameOk f × Narrow g × (f.mode ≡ New number) }
    ensures { (b : List ℕ) → NextIs b w.old f g → MovesBy b w.old result w.new }
{
    let width = g.width;
    let here = EXTENSION_SIZE * number + f.at;
    match judge(&NEW, here, g) {
        Act::Keep => {
            w.advance(f, width);
            Move::New(here, width)
        }
        Act::Refuse => Move::Stop(here),
        Act::Follow(kind) => {
            if DEEPEST <= w.depth {
                return Move::Stop(f.place);
            }
            w.advance(f, width);
            w.enter(Mode::Plain, kind, f.place);
            Move::Begin
        }
    }
}

// By how f is read.
fn step_in(table: &[u8], w: &mut Walk, f: Frame, g: Field) -> Move
    requires { NextIs table.now w.old f g }
    ensures { MovesBy table.now w.old result w.new }
{
    match f.mode {
        Mode::Plain | Mode::Last(_) => step_field(table, w, f, g),
        Mode::Promoted => if f.index == 0 {
            step_type(table, w, f, g)
        } else {
            step_field(table, w, f, g)
        },
        Mode::New(number) => step_new(w, f, g, number),
    }
}

// The next move of a walk, which is made on it. Stop and Done leave it as it was.
pub fn step(table: &[u8], w: &mut Walk) -> Move
    requires { Standing w.old }
    ensures { MovesBy table.now w.old result w.new }
{
    if w.depth == 0 {
        return Move::Done;
    }
    let f = w.innermost();
    if w.back {
        w.back = false;
        return Move::Link(f.width);
    }
    let Some(g) = next_in(table, f.mode, f.kind, f.place, f.index) else {
        w.leave();
        return Move::End;
    };
    step_in(table, w, f, g)
}
