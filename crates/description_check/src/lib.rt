// What a board that no reader made is refused for (rules 7.2 to 7.7, 7.19, 7.20, 8.5).
// Tests of numbers at hand are joined by & and |, not by && and ||: each part is safe by itself, a proof meets the whole as one test,
// and the code has one branch for them.
#![tactic(auto)]

ghost use Rattle.std.specs.Prelude.{◌≡◌, true, ℕ, ◌≤◌, ◌<◌, ◌+◌, ◌%◌, option_to_list, IfSome};
ghost use Rattle.common_laws.specs.Lists.{member};
ghost use Rattle.common_numbers.specs.Refusals.{refusal_in};
ghost use Rattle.description_board.specs.Records.{slave_at};
ghost use Rattle.description_board.specs.Rules.{spans, step_all};
ghost use Rattle.description_board.specs.Items.{master_item, slave_item, board_refusal};
ghost use Rattle.description_layout.specs.Layout.{board_in};
ghost use Rattle.description_check.specs.Code.Entries.{pair_item, last_item, entry_count, line_at};
ghost use Rattle.description_check.specs.Code.Accept.{power_up_to, MastersFit, SlaveFits, Clear, NativesUpTo, SlavesFit};
ghost use Rattle.description_check.specs.Code.Accept.{Narrowest, ColumnFits, WideEnough, NativesFit};
ghost use Rattle.description_check.specs.Code.Accept.{share_limit, RowFits, RowEmpty, RowPasses, SharesFit};

use common_numbers::{BOARD_NUMBERS, Refusal};
use description_board::{Item, Master, NO_SLAVE, Slave, SlaveNumbers};

// The line of master i (rule 1.3); past the array, where the counts of a board that no reader made can lead, a line of zeros.
fn master_item(board: &[u32; BOARD_NUMBERS], i: usize) -> Item
    ensures { result ≡ master_item (board_in board.now).masters i }
{
    let m = if i < 8 {
        description_layout::master_at(board, i)
    } else {
        Master::default()
    };
    Item::MasterLine(u64::from(m.width), u64::from(m.burst))
}

// The line of slave i (rule 1.3); past the array a line of zeros.
fn slave_item(board: &[u32; BOARD_NUMBERS], i: usize) -> Item
    ensures { result ≡ slave_item (board_in board.now).slaves i }
{
    let s = if i < 16 {
        description_layout::slave_at(board, i)
    } else {
        NO_SLAVE
    };
    Item::SlaveLine(SlaveNumbers::from(s))
}

// The line of the pair at index i of the shares (rules 1.3, 1.8), if it is connected.
#[tactic(auto, unfolding(crate::specs::Code::Entries::pair_item))]
fn pair_item(board: &[u32; BOARD_NUMBERS], i: u64) -> Option<Item>
    ensures { result ≡ pair_item (board_in board.now).shares i }
{
    let n = description_rules::share_or_none(board, i);
    if n == 0 {
        None
    } else {
        Some(Item::ShareLine(i / 16, i % 16, u64::from(n)))
    }
}

// The line `default` of a board that has it (rules 1.3, 1.11).
#[tactic(auto, unfolding(crate::specs::Code::Entries::last_item))]
fn last_item(board: &[u32; BOARD_NUMBERS]) -> Option<Item>
    ensures { result ≡ last_item (board_in board.now).default_line }
{
    description_layout::default_at(board).then_some(Item::DefaultLine)
}

// How many entries a board's lines have (rule 1.9): its masters, its slaves, the pairs of a master and a slave, the line `default`.
pub fn entry_count(board: &[u32; BOARD_NUMBERS]) -> usize
    ensures { result ≡ entry_count (board_in board.now) }
{
    let m = description_layout::master_count(board) as usize;
    let s = description_layout::slave_count(board) as usize;
    m + s + 129
}

// The line of entry k (rules 1.4, 1.9), if it has one.
pub fn line_at(board: &[u32; BOARD_NUMBERS], k: usize) -> Option<Item>
    ensures { result ≡ line_at (board_in board.now) k }
{
    let m = description_layout::master_count(board) as usize;
    let s = description_layout::slave_count(board) as usize;
    if k < m {
        return Some(master_item(board, k));
    }
    let n = m + s;
    if k < n {
        return Some(slave_item(board, k - m));
    }
    if k < n + 128 {
        return pair_item(board, (k - n) as u64);
    }
    last_item(board)
}

// The first refusal of a board's own lines (rules 1.10, 8.5). The board is built again, line by line, up to the first refusal: a
// later line cannot change the answer, and the counts of a board that no reader made can be any number.
pub fn board_refusal_by_lines(board: &[u32; BOARD_NUMBERS]) -> Result<(), Refusal>
    ensures { refusal_in result ≡ board_refusal (board_in board.now) }
{
    let mut own = [0; BOARD_NUMBERS];
    let mut above = 0;
    for k in 0..entry_count(board) {
        if let Some(item) = line_at(board, k) {
            above = description_rules::step(&mut own, Ok(above), item)?;
        }
    }
    description_rules::finish(&mut own, Ok(above))?;
    Ok(())
}

// ---- a fast accept
// board_refusal_by_lines builds a board again from its lines: too much for every clock. These functions test the board as it
// stands. One that passes is accepted; one that fails is left to that function, which says what it is refused for.

// Whether x is a power of two up to so much: so the legal widths and bursts are listed (rule 1.6).
#[tactic(auto, unfolding(crate::specs::Code::Accept::power_up_to))]
fn is_power_up_to(x: u32, most: u32) -> bool
    ensures { result ≡ power_up_to most x }
{
    (x <= most) & x.is_power_of_two()
}

// Whether span is legal and base a multiple of it (rules 1.6, 1.7). A legal span has one bit set, so the bits below that one do
// for a remainder.
fn span_fits(base: u32, span: u32) -> bool
    ensures { result ≡ true → (member span spans ≡ true) × (base % span ≡ 0) }
{
    let low = span.saturating_sub(1);
    (is_power_up_to(span, 65536) & (8 <= span)) & (base & low == 0)
}

// Whether each of the first n masters is legal (rule 1.6).
fn masters_fit(board: &[u32; BOARD_NUMBERS], n: usize) -> bool
    requires { n ≤ 8 }
    ensures { result ≡ true → MastersFit (board_in board.now).masters n }
{
    for i in 0..n {
        let m = description_layout::master_at(board, i);
        if !(is_power_up_to(m.width, 8) & is_power_up_to(m.burst, 64)) {
            return false;
        }
    }
    true
}

// Whether a slave by itself is legal (rules 1.6, 1.7), its native left out: slaves_fit judges that of all slaves at once.
fn slave_fits(s: Slave) -> bool
    ensures { result ≡ true → SlaveFits s }
{
    let times = (s.read_wait <= 255) & ((s.write_wait <= 255) & (s.latency <= 63));
    let sizes = is_power_up_to(s.width, 8) & is_power_up_to(s.burst, 64);
    span_fits(s.base, s.span) & (sizes & times)
}

// Whether the span at base meets none of the first n spans (rule 1.7), none of which ends behind last. On a board whose slaves
// stand in the order of their addresses base is never below that, and no span is looked at.
fn clear_of(board: &[u32; BOARD_NUMBERS], n: usize, base: u32, span: u32, last: u64) -> bool
    requires n_bound { n ≤ 16 }
    requires by_index { (k : ℕ) → k < n → (slave_at (board_in board.now) k).base + (slave_at (board_in board.now) k).span ≤ last }
    ensures { result ≡ true → Clear base span (board_in board.now).slaves n }
{
    last <= u64::from(base) || !description_rules::overlaps(board, n, base, span)
}

// A number that is 0 if none of the first n slaves is native, if they are legal, each by itself and together (rules 1.6, 1.7). A bit
// of any native stays in the number, and if it is at most 1 each of them is. What a native slave asks of its masters is left to
// natives_fit: in this loop its test would cost every board.
fn slaves_fit(board: &[u32; BOARD_NUMBERS], n: usize) -> Option<u32>
    requires { n ≤ 16 }
    ensures { IfSome result (SlavesFit (board_in board.now).slaves n) }
{
    let mut native: u32 = 0;
    let mut last: u64 = 0;
    let mut total: u64 = 0;
    for i in 0..n {
        let s = description_layout::slave_at(board, i);
        if !slave_fits(s) {
            return None;
        }
        if !clear_of(board, i, s.base, s.span, last) {
            return None;
        }
        let span = u64::from(s.span);
        native |= s.native;
        last = last.max(u64::from(s.base) + span);
        total += span;
    }
    if (total <= 65536) & (native <= 1) {
        Some(native)
    } else {
        None
    }
}

// A width that none of the first n masters is below: that of the narrowest.
fn narrowest(board: &[u32; BOARD_NUMBERS], n: usize) -> u32
    requires { n ≤ 8 }
    ensures { Narrowest (board_in board.now).masters n result }
{
    let mut least: u32 = 8;
    for i in 0..n {
        let m = description_layout::master_at(board, i);
        least = least.min(m.width);
    }
    least
}

// Whether no master with shares at slave s is narrower than so many bytes (rule 7.19).
fn column_fits(board: &[u32; BOARD_NUMBERS], s: usize, width: u32) -> bool
    requires { s < 16 }
    ensures { result ≡ true → ColumnFits (board_in board.now) s width 8 }
{
    let mut bad = false;
    for m in 0..8 {
        let x = description_layout::shares_at(board, m, s);
        let master = description_layout::master_at(board, m);
        bad |= (0 < x) & (master.width < width);
    }
    !bad
}

// Whether slave s, if it is native, has no narrower master (rule 7.19). Its masters are looked at only if it is native and wider than
// the narrowest of the board.
fn wide_enough(board: &[u32; BOARD_NUMBERS], s: usize, slave: Slave, least: u32) -> bool
    requires { s < 16 }
    ensures { result ≡ true → WideEnough (board_in board.now) s slave least }
{
    (slave.native == 0) | (slave.width <= least) || column_fits(board, s, slave.width)
}

// Whether no slave before n that is native has a narrower one of so many masters (rule 7.19). If native is 0 no slave is, and none
// is looked at.
fn natives_fit(board: &[u32; BOARD_NUMBERS], n: usize, native: u32, masters: usize) -> bool
    requires n_bound { (n ≤ 16) × (masters ≤ 8) }
    requires natives_up_to { NativesUpTo (board_in board.now).slaves n native }
    ensures { result ≡ true → NativesFit (board_in board.now) n masters }
{
    if native == 0 {
        return true;
    }
    let least = narrowest(board, masters);
    for i in 0..n {
        let s = description_layout::slave_at(board, i);
        if !wide_enough(board, i, s, least) {
            return false;
        }
    }
    true
}

// The most shares that a master can have at slave s of n (rules 1.6, 1.8).
fn share_limit(s: u32, n: u32) -> u32
    ensures { result ≡ share_limit s n }
{
    if s < n { 100 } else { 0 }
}

// Whether every share of a master is at most 100 and none stands from slave n on (rules 1.6, 1.8). The loop has no early return
// and each share is compared once, so that it compiles to tests of several shares at a time.
fn row_fits(board: &[u32; BOARD_NUMBERS], m: usize, n: u32) -> bool
    requires { m < 8 }
    ensures { result ≡ true → RowFits (board_in board.now).shares m n 16 }
{
    let mut bad = false;
    for s in 0..16u32 {
        let x = description_layout::shares_at(board, m, s as usize);
        bad |= share_limit(s, n) < x;
    }
    !bad
}

// Whether a master has no share (rule 1.8). A bit of any share stays in used.
fn row_empty(board: &[u32; BOARD_NUMBERS], m: usize) -> bool
    requires { m < 8 }
    ensures { result ≡ true → RowEmpty (board_in board.now).shares m 16 }
{
    let mut used: u32 = 0;
    for s in 0..16 {
        let x = description_layout::shares_at(board, m, s);
        used |= x;
    }
    used == 0
}

// Whether the shares of master m are legal on a board with so many masters and slaves (rules 1.6, 1.8).
fn row_passes(board: &[u32; BOARD_NUMBERS], m: usize, masters: usize, slaves: u32) -> bool
    requires { m < 8 }
    ensures { result ≡ true → RowPasses (board_in board.now).shares m masters slaves }
{
    if m < masters {
        row_fits(board, m, slaves)
    } else {
        row_empty(board, m)
    }
}

// Whether every share is at most 100 and none stands outside the counts (rules 1.6, 1.8).
fn shares_fit(board: &[u32; BOARD_NUMBERS], masters: usize, slaves: u32) -> bool
    ensures { result ≡ true → SharesFit (board_in board.now).shares masters slaves 8 }
{
    for m in 0..8 {
        if !row_passes(board, m, masters, slaves) {
            return false;
        }
    }
    true
}

// Whether a board passes every test (rules 1.1, 1.6 to 1.8, 7.19, 7.20). Nothing is said of one that does not. Each test returns by
// itself: of tests joined by && a proof is told the later ones as flags alone.
fn accepts(board: &[u32; BOARD_NUMBERS]) -> bool
    ensures { result ≡ true → board_refusal (board_in board.now) ≡ 0 }
{
    let m = description_layout::master_count(board);
    let s = description_layout::slave_count(board);
    if !(1..=8).contains(&m) {
        return false;
    }
    if !(1..=16).contains(&s) {
        return false;
    }
    if !masters_fit(board, m as usize) {
        return false;
    }
    let Some(native) = slaves_fit(board, s as usize) else {
        return false;
    };
    if !natives_fit(board, s as usize, native, m as usize) {
        return false;
    }
    if !shares_fit(board, m as usize, s) {
        return false;
    }
    m <= description_rules::without_share(board)
}

// What a board is refused for (rules 1.10, 8.5): what board_refusal_by_lines answers, at once if the board is accepted.
pub fn board_refusal(board: &[u32; BOARD_NUMBERS]) -> Result<(), Refusal>
    ensures { refusal_in result ≡ board_refusal (board_in board.now) }
{
    if accepts(board) {
        Ok(())
    } else {
        board_refusal_by_lines(board)
    }
}
