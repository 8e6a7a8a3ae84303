// A board, the lines of its description, and what has been read of one; specs/Rules.antt has their rules (7.1 to 7.7, 7.19 to
// 7.21).
// The numbers of a master and of a slave are those of their lines (rules 1.3, 1.6).
#![tactic(auto)]

ghost use Rattle.std.specs.Prelude.{◌≡◌};
ghost use Rattle.description_board.specs.Items.{slave_numbers};

#[derive(Clone, Copy, Default)]
pub struct Master {
    pub width: u32,
    pub burst: u32,
}

// The numbers of a slave, in the order of its line's fields (rule 1.3): those of a board's slave are u32, those of a line not yet
// checked u64.
#[derive(Clone, Copy, Default)]
pub struct SlaveFields<T> {
    pub base: T,
    pub span: T,
    pub width: T,
    pub burst: T,
    pub read_wait: T,
    pub write_wait: T,
    pub native: T,
    pub latency: T,
}

pub type Slave = SlaveFields<u32>;

pub type SlaveNumbers = SlaveFields<u64>;

// The slave of an index past the count.
pub const NO_SLAVE: Slave = SlaveFields {
    base: 0,
    span: 0,
    width: 0,
    burst: 0,
    read_wait: 0,
    write_wait: 0,
    native: 0,
    latency: 0,
};

// The numbers of a slave's line (rule 1.3).
impl From<Slave> for SlaveNumbers {
    ghost from_gives = { λ s n. n ≡ slave_numbers s };

    fn from(s: Slave) -> SlaveNumbers {
        SlaveFields {
            base: u64::from(s.base),
            span: u64::from(s.span),
            width: u64::from(s.width),
            burst: u64::from(s.burst),
            read_wait: u64::from(s.read_wait),
            write_wait: u64::from(s.write_wait),
            native: u64::from(s.native),
            latency: u64::from(s.latency),
        }
    }
}

// The shares of master m at slave s stand at index 16 * m + s; 0: not connected (rule 1.8). default_line: the board has the line
// `default` (rule 1.11). The counts stand beside arrays of fixed length, as in the numbers that are lent: there is no heap.
#[derive(Clone, Copy)]
pub struct Board {
    pub master_count: u32,
    pub slave_count: u32,
    pub masters: [Master; 8],
    pub slaves: [Slave; 16],
    pub shares: [u32; 128],
    pub default_line: bool,
}

// One line of a description (rule 1.3): the numbers of its fields, or a line that is none of the four kinds (rule 7.1). That is a case
// of its own in the definitions, as `item_refusal`, and so here.
#[derive(Clone, Copy)]
pub enum Item {
    Malformed,
    MasterLine(u64, u64),
    SlaveLine(SlaveNumbers),
    ShareLine(u64, u64, u64),
    DefaultLine,
}

// What has been read of a description (rule 8.2): the refusal's number or 0, the rank of the pair on the line above, from 1, and 0
// where that is no share line, the board so far. A record of the definitions (`step`), which give a refusal by its number; no code makes
// one.
#[derive(Clone, Copy)]
pub struct Reading {
    pub number: u32,
    pub above: u64,
    pub board: Board,
}
