// The lines of a description (rules 1.2, 1.3): the item that a line of a text says, and an item's line.
#![tactic(auto)]

ghost use Rattle.std.specs.Prelude.{◌≡◌, ◌+◌, ◌≤◌, ◌<◌, length};
ghost use Rattle.common_text.specs.Code.Scanning.{HasRoom, Wrote};
ghost use Rattle.description_lines.specs.Reader.{master_line, slave_line, share_line, item_of};
ghost use Rattle.description_lines.specs.Code.LineFrom.{LineFrom};
ghost use Rattle.description_lines.specs.Writer.{slave_fields, item_text};

use common_numbers::SLAVE_FIELDS;
use common_text::{Numbers, Writer};
use description_board::{Item, SlaveNumbers};

// A line that was read, and the position in its text where the next one starts (rule 1.2).
#[derive(Clone, Copy)]
pub struct LineRead {
    pub item: Item,
    pub next: usize,
}

// The count of a slave line's numbers, as `Numbers` has it.
const SLAVE_COUNT: u8 = SLAVE_FIELDS as u8;

// What a master line's numbers say (rules 1.3, 7.1).
#[tactic(auto, unfolding(crate::specs::Reader::master_line))]
fn master_line(ns: Numbers) -> Item
    ensures { result ≡ master_line ns }
{
    if ns.count != 2 {
        return Item::Malformed;
    }
    let [width, burst, ..] = ns.values;
    Item::MasterLine(width, burst)
}

// What a slave line's numbers say (rules 1.3, 7.1).
#[tactic(auto, unfolding(crate::specs::Reader::slave_line))]
fn slave_line(ns: Numbers) -> Item
    ensures { result ≡ slave_line ns }
{
    if ns.count != SLAVE_COUNT {
        return Item::Malformed;
    }
    let [
        base,
        span,
        width,
        burst,
        read_wait,
        write_wait,
        native,
        latency,
    ] = ns.values;
    Item::SlaveLine(SlaveNumbers {
        base,
        span,
        width,
        burst,
        read_wait,
        write_wait,
        native,
        latency,
    })
}

// What a share line's numbers say (rules 1.3, 7.1).
#[tactic(auto, unfolding(crate::specs::Reader::share_line))]
fn share_line(ns: Numbers) -> Item
    ensures { result ≡ share_line ns }
{
    if ns.count != 3 {
        return Item::Malformed;
    }
    let [master, slave, shares, ..] = ns.values;
    Item::ShareLine(master, slave, shares)
}

// What a line without its line feed says (rules 1.3, 7.1). The numbers are read before the word is known, once for all three. Of a
// `match` on byte strings a proof learns their lengths alone, so the words are compared one by one.
fn item_of(line: &[u8]) -> Item
    ensures { result ≡ item_of line.now }
{
    let e = common_text::find_byte(line, b',');
    let word = &line[..e];
    let ns = common_text::numbers_behind(line, e);
    if word == b"master".as_slice() {
        return master_line(ns);
    }
    if word == b"slave".as_slice() {
        return slave_line(ns);
    }
    if word == b"share".as_slice() {
        return share_line(ns);
    }
    // `default` has no field behind its word: the whole line is looked at
    if line == b"default".as_slice() {
        return Item::DefaultLine;
    }
    Item::Malformed
}

// The line from a position of a text on, not its end (rules 1.2, 8.2). One that lacks its line feed is malformed, and the last.
pub fn line_from(text: &[u8], at: usize) -> LineRead
    requires { at < length text.now }
    ensures { LineFrom text.now at result.item result.next }
{
    let rest = &text[at..];
    let e = common_text::find_byte(rest, b'\n');
    if e == rest.len() {
        return LineRead {
            item: Item::Malformed,
            next: text.len(),
        };
    }
    LineRead {
        item: item_of(&rest[..e]),
        next: at + e + 1,
    }
}

// The numbers of a slave line in the order of its fields (rule 1.3). Each is named, so that none can be left out.
fn slave_fields(n: SlaveNumbers) -> [u64; SLAVE_FIELDS]
    ensures { result ≡ slave_fields n }
{
    let SlaveNumbers {
        base,
        span,
        width,
        burst,
        read_wait,
        write_wait,
        native,
        latency,
    } = n;
    [
        base, span, width, burst, read_wait, write_wait, native, latency,
    ]
}

// Writes a line with its line feed (rules 1.2, 1.3); a malformed one has no bytes, and no board has one.
pub fn put_item(writer: &mut Writer<'_>, x: Item)
    requires { HasRoom writer.old (item_text x) }
    ensures { Wrote writer.old (item_text x) writer.new }
{
    match x {
        Item::Malformed => {}
        Item::MasterLine(width, burst) => writer.put_line(b"master", &[width, burst]),
        Item::SlaveLine(n) => writer.put_line(b"slave", &slave_fields(n)),
        Item::ShareLine(m, s, shares) => writer.put_line(b"share", &[m, s, shares]),
        Item::DefaultLine => writer.put_line(b"default", &[]),
    }
}

// How many bytes put_item writes: the word's, the fields', the line feed (rules 1.2, 1.3).
pub fn item_length(x: Item) -> usize
    ensures { result ≡ length (item_text x) }
{
    match x {
        Item::Malformed => 0,
        Item::MasterLine(width, burst) => 7 + common_text::fields_length(&[width, burst]),
        Item::SlaveLine(n) => 6 + common_text::fields_length(&slave_fields(n)),
        Item::ShareLine(m, s, shares) => 6 + common_text::fields_length(&[m, s, shares]),
        Item::DefaultLine => 8,
    }
}
