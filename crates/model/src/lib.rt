// The plain data of the pane console that all crates share: structs and enums by value. What they mean is
// stated in specs/, in the order of the paper. The three functions do nothing: their contracts are the theorems
// over the bench figures, over CIRCLE's points and over the scissor.
#![tactic(auto)]

ghost use Rattle.std.specs.Prelude.{ℕ, ◌≡◌};
ghost use Rattle.model.specs.Circles.{CirclePoints};
ghost use Rattle.model.specs.Figures.{All, table};
ghost use Rattle.model.specs.ScissorKept.{ScissorKept};

// ---- Screen, panes, stores

// The screen's size in pixels, and its bits per pixel.
#[derive(Clone, Copy)]
pub struct Geometry {
    pub width: u32,
    pub height: u32,
    pub depth: u32,
}

// A row of the table, one for each pane: a rectangle of the screen, and the store, a part of the stores
// buffer.
#[derive(Clone, Copy)]
pub struct Row {
    pub left: u32,
    pub top: u32,
    pub width: u32,
    pub height: u32,
    pub start: u32,
    pub len: u32,
}

// What a pane is seen through: the screen's geometry and the pane's row.
#[derive(Clone, Copy)]
pub struct Frame {
    pub geometry: Geometry,
    pub row: Row,
}

// "Status: 0 parked, 1 running, 2 ended, 3 faulted"; 4 stopped after a CHAR that met a T (02, A.7). A record may be lent
// with any status, fault, operation, path and rotation, and refusal 12 says which it has not (`pane_bad`): so these are
// numbers, and no enums.
pub const STATUS_PARKED: u8 = 0;

pub const STATUS_RUNNING: u8 = 1;

pub const STATUS_ENDED: u8 = 2;

pub const STATUS_FAULTED: u8 = 3;

pub const STATUS_TRAPPED: u8 = 4;

// How far a list has come.
#[derive(Clone, Copy)]
pub struct Progress {
    pub status: u8,
    pub fault: u8,
    pub pointer: u32,
}

// A position: the bit patterns of two 16-bit signed coordinates.
#[derive(Clone, Copy)]
pub struct Point {
    pub x: u16,
    pub y: u16,
}

// The active bitmap, with the values that DEF_BITMAP gave. Readers tell the three cases apart at once: an `Option` of the
// other two would nest each match.
#[derive(Clone, Copy)]
pub enum Bitmap {
    Absent,
    Pane {
        xmax: u16,
        ymax: u16,
        bits: u16,
    },
    Store {
        address: u32,
        xmax: u16,
        ymax: u16,
        bits: u16,
    },
}

// The clip rectangle, all four sides in.
#[derive(Clone, Copy)]
pub struct Clip {
    pub xmin: u16,
    pub ymin: u16,
    pub xmax: u16,
    pub ymax: u16,
}

// The scissor (02, A.6): "the rectangle in screen coordinates where drawing can land", four zeros where it can
// land nowhere.
#[derive(Clone, Copy, PartialEq, Eq)]
pub struct Scissor {
    pub left: u32,
    pub top: u32,
    pub width: u32,
    pub height: u32,
}

// What pixels are drawn with: colours, raster operation with its mask, pattern.
#[derive(Clone, Copy)]
pub struct Pen {
    pub fore: u16,
    pub back: u16,
    pub op: u8,
    pub mask: u16,
    pub pattern: u16,
    pub transparent: bool,
}

// The font: none, or its base address in word mode or in byte mode, told apart at once as a bitmap's cases are.
#[derive(Clone, Copy)]
pub enum Font {
    Absent,
    Word(u32),
    Byte(u32),
}

// What characters are drawn with; path and rotation in quarter turns.
#[derive(Clone, Copy)]
pub struct Text {
    pub spacing: u16,
    pub path: u8,
    pub rotation: u8,
    pub font: Font,
}

// Pick mode, the pick and trap flags, and the trap switch (02, A.7): on, a CHAR that met a T stops the run.
#[derive(Clone, Copy)]
pub struct Flags {
    pub picking: bool,
    pub pick: bool,
    pub trap: bool,
    pub switch: bool,
}

// The return addresses that CALL kept, the latest at count - 1.
#[derive(Clone, Copy)]
pub struct Returns {
    pub addresses: [u32; 8],
    pub count: u8,
}

// What of a pane record the faults of a command depend on: the active bitmap, the font, and how many return
// addresses are kept.
#[derive(Clone, Copy)]
pub struct Context {
    pub bitmap: Bitmap,
    pub font: Font,
    pub kept: u8,
}

// A pane record.
#[derive(Clone, Copy)]
pub struct Pane {
    pub progress: Progress,
    pub position: Point,
    pub bitmap: Bitmap,
    pub clip: Clip,
    pub scissor: Scissor,
    pub pen: Pen,
    pub text: Text,
    pub flags: Flags,
    pub returns: Returns,
}

// The console record. The first `count` rows are the table; pane n has row n and record n.
#[derive(Clone, Copy)]
pub struct Console {
    pub geometry: Geometry,
    pub count: u32,
    pub rows: [Row; 8],
    pub panes: [Pane; 8],
}

// ---- One command

// What an opcode number names.
#[derive(Clone, Copy)]
pub enum Opcode {
    Link,
    Nop,
    DefTexture(bool),
    DefCharSet(bool),
    Call,
    Return,
    DefBitmap,
    DefColors,
    DefLogicalOp,
    EnterPick,
    ExitPick,
    DefClipRect,
    DefSpace,
    DefCharOrient,
    AbsMov,
    RelMov,
    Point,
    Line,
    Rect,
    BitBlt,
    Polyline,
    Circle,
    Char(bool),
    BitBltM,
    ScanLines,
}

// A known opcode number: what it names, and the number of its parameter words.
#[derive(Clone, Copy)]
pub struct OpcodeEntry {
    pub opcode: Opcode,
    pub words: u8,
}

// The source rectangle of a copy, by its words: from (x,y) to (x+dx,y+dy), both corners in.
#[derive(Clone, Copy)]
pub struct Block {
    pub x: u16,
    pub y: u16,
    pub dx: u16,
    pub dy: u16,
}

// A command with its words. Coordinates and offsets are 16-bit patterns, addresses have 22 bits.
#[derive(Clone, Copy)]
pub enum Command {
    Link {
        address: u32,
    },
    Nop,
    DefTexture {
        pattern: u16,
        transparent: bool,
    },
    DefCharSet {
        base: u32,
        bytes: bool,
    },
    Call {
        address: u32,
    },
    Return,
    DefBitmap {
        address: u32,
        xmax: u16,
        ymax: u16,
        bits: u16,
    },
    DefColors {
        fore: u16,
        back: u16,
    },
    DefLogicalOp {
        mask: u16,
        code: u16,
    },
    EnterPick,
    ExitPick,
    DefClipRect {
        xmin: u16,
        ymin: u16,
        xmax: u16,
        ymax: u16,
    },
    DefSpace {
        spacing: u16,
    },
    DefCharOrient {
        orientation: u16,
    },
    AbsMov {
        x: u16,
        y: u16,
    },
    RelMov {
        dx: u16,
        dy: u16,
    },
    Point {
        dx: u16,
        dy: u16,
    },
    Line {
        dx: u16,
        dy: u16,
    },
    Rect {
        dx: u16,
        dy: u16,
    },
    BitBlt {
        block: Block,
    },
    Polyline {
        array: u32,
        count: u16,
    },
    Circle {
        radius: u16,
    },
    Char {
        string: u32,
        count: u16,
        transparent: bool,
    },
    BitBltM {
        address: u32,
        xmax: u16,
        ymax: u16,
        block: Block,
    },
    ScanLines {
        array: u32,
        count: u16,
    },
}

// "Faults, in the order written within a command", each with the paper's number; the last two are the judge's own.
#[derive(Clone, Copy, Debug, PartialEq, Eq)]
pub enum Fault {
    Opcode = 20,
    Fetch = 21,
    Bitmap = 22,
    NoBitmap = 23,
    Clip = 24,
    Data = 25,
    Call = 26,
    Return = 27,
    NoFont = 28,
    Copy = 29,
    Radius = 30,
    Barred = 31,
    Long = 32,
}

impl From<Fault> for u8 {
    ghost use Rattle.model.specs.Numbers.{fault_number};

    ghost from_gives = { λ fault n. n ≡ fault_number fault };

    fn from(fault: Fault) -> u8 {
        fault as u8
    }
}

// What stands at the pointer: a command with the address after it, the end, or a fault. Every reader tells all three
// apart at once, so `Option` in `Result` would be no plainer.
#[derive(Clone, Copy)]
pub enum Decoded {
    Do(Command, u32),
    End,
    Fault(Fault),
}

// ---- Pixels

// Pixels in a buffer: rows of so many words from the base byte on, and of these rows and columns the
// rectangle from (left, top) on. The pane and a bitmap in the store are both one.
#[derive(Clone, Copy)]
pub struct Surface {
    pub base: usize,
    pub words: usize,
    pub bits: usize,
    pub left: usize,
    pub top: usize,
    pub width: usize,
    pub height: usize,
}

// What a pixel is drawn with: nothing (a 0 under transparency), a colour word, or a copied value, told apart at once.
#[derive(Clone, Copy)]
pub enum Source {
    Nothing,
    Colour(u16),
    Copied(u8),
}

// ---- Replies

// What run answers: the commands done, the status and the fault, and the pixels drawn.
#[derive(Clone, Copy)]
pub struct Ran {
    pub commands: u32,
    pub status: u8,
    pub fault: u8,
    pub pixels: u64,
}

// What look answers.
#[derive(Clone, Copy)]
pub struct View {
    pub progress: Progress,
    pub position: Point,
    pub pick: bool,
    pub trap: bool,
}

// A fault that the judge finds, 31 or 32 among them, with the address of its command.
#[derive(Clone, Copy, Debug, PartialEq, Eq)]
pub struct FoundFault {
    pub fault: Fault,
    pub address: u32,
}

// An accepted call's reply, with its values. The judge answers how many commands it walked of a clean list, or else
// the first fault.
#[derive(Clone, Copy)]
pub enum Reply {
    Done,
    Ran(Ran),
    Seen(View),
    Value(u8),
    Judged(Result<u32, FoundFault>),
}

// "Calls and their refusals", each with the paper's number.
#[derive(Clone, Copy, Debug, PartialEq, Eq)]
pub enum Refusal {
    Pane = 1,
    End = 2,
    Odd = 3,
    Status = 4,
    Pixel = 5,
    Geometry = 6,
    Screen = 7,
    Rectangle = 8,
    Store = 9,
    Overlap = 10,
    Shared = 11,
    Record = 12,
    Switch = 33,
}

impl From<Refusal> for u8 {
    ghost use Rattle.model.specs.Numbers.{refusal_number};

    ghost from_gives = { λ refusal n. n ≡ refusal_number refusal };

    fn from(refusal: Refusal) -> u8 {
        refusal as u8
    }
}

// ---- Bench figures

// Does nothing. Its contract is the theorem over the table of P1 to P12, so that no check passes without it.
pub fn figures_hold()
    ensures { All table }
{}

// ---- CIRCLE's points

// Does nothing. Its contract is that CIRCLE's points are all those of its definition and no others, each once,
// so that no check passes without it.
pub fn circles_hold()
    ensures { (radius : ℕ) → CirclePoints radius }
{}

// ---- The scissor

// Does nothing. Its contract is that the scissor holds exactly the pane's pixels in bitmap and clip and that every
// call and command keeps it, so that no check passes without it.
pub fn scissor_holds()
    ensures { ScissorKept }
{}
