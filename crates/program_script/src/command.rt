// Lines of the simulator's script. A line is a word and its fields, parted by commas.
ghost use Rattle.std.specs.Prelude.{◌≡◌, ◌≤◌, length};
ghost use Rattle.program_script.specs.Lines as lines;

use common_numbers::{BUFFER_BYTES, MASTERS, SLAVE_FIELDS, SLAVES};
use program_lines::Problem;

// The room to read a script into. The longest line is a fill of all the memory: two digits for each of MEMORY_ROOM bytes after
// `fill,memory,0,`. A line that fills all of the room says nothing that could be done.
pub const INPUT: usize = 131200;

// What a line overwrites, of the state (up to Entry) or of the board.
#[derive(Clone, Copy)]
pub enum Part {
    Transfer,
    Slot,
    Log,
    Entry,
    Master,
    Slave,
    Share,
    Count,
    Default,
}

// The kinds of line: those that overwrite a part, those that call the fabric (up to Take), and those that do neither.
#[derive(Clone, Copy)]
pub enum Kind {
    Overwrite(Part),
    Reset,
    Post,
    Clock,
    Take,
    State,
    Wait,
    Fill,
    Show,
    Lend,
}

// What a field holds: a flag; a master or an entry of the log; a card; a number of one byte, of two, of four, of ten digits; the
// name of a store; a direction; bytes, and those of a post.
#[derive(Clone, Copy)]
enum Field {
    Flag,
    Master,
    Card,
    Byte,
    Half,
    Word,
    Long,
    Store,
    Direction,
    Bytes,
    Posted,
}

// The room for what a line has after its word. A slave line has the most, its card's index and the numbers of a description's slave
// line, and a record that is printed has no more.
pub const FIELD_COUNT: usize = SLAVE_FIELDS + 2;

// What a line with a known word is, and the fields after the word.
#[derive(Clone, Copy)]
struct Form {
    kind: Kind,
    fields: &'static [Field],
    ghost few: { length fields.now ≤ 10 },
}

fn line_of(kind: Kind, fields: &'static [Field]) -> Option<Form>
    requires { length fields.now ≤ 10 }
{
    Some(Form { kind, fields })
}

fn overwrites(part: Part, fields: &'static [Field]) -> Option<Form>
    requires { length fields.now ≤ 10 }
{
    line_of(Kind::Overwrite(part), fields)
}

// The lines that overwrite a part, by their words.
fn part_of(word: &[u8]) -> Option<Form> {
    use Field::{Byte, Card, Flag, Half, Master, Word};
    match word {
        b"transfer" => overwrites(
            Part::Transfer,
            &[Master, Flag, Flag, Word, Byte, Byte, Word],
        ),
        b"slot" => overwrites(Part::Slot, &[Card, Byte, Byte, Flag, Half, Byte]),
        b"log" => overwrites(Part::Log, &[Word, Flag]),
        b"entry" => overwrites(Part::Entry, &[Master, Byte, Word, Flag]),
        b"master" => overwrites(Part::Master, &[Master, Byte, Byte]),
        b"slave" => overwrites(
            Part::Slave,
            &[Card, Word, Word, Byte, Byte, Byte, Byte, Word, Word],
        ),
        b"share" => overwrites(Part::Share, &[Master, Card, Byte]),
        b"count" => overwrites(Part::Count, &[Byte, Byte]),
        b"default" => overwrites(Part::Default, &[Flag]),
        _ => None,
    }
}

// All lines.
fn form_of(word: &[u8]) -> Option<Form> {
    use Field::{Byte, Bytes, Direction, Long, Posted, Store, Word};
    match word {
        b"reset" => line_of(Kind::Reset, &[]),
        b"post" => line_of(Kind::Post, &[Word, Direction, Word, Byte, Byte, Posted]),
        b"clock" => line_of(Kind::Clock, &[Word]),
        b"take" => line_of(Kind::Take, &[]),
        b"state" => line_of(Kind::State, &[]),
        b"wait" => line_of(Kind::Wait, &[Word, Word]),
        b"fill" => line_of(Kind::Fill, &[Store, Long, Bytes]),
        b"show" => line_of(Kind::Show, &[Store, Long, Long]),
        b"lend" => line_of(Kind::Lend, &[Store, Long]),
        _ => part_of(word),
    }
}

// What a line says: its kind, what its fields say in their order, and the text of its last field, if it has one. Each field is a
// number, a name 0 or 1 and bytes their count, since `overwrite` stores fields one after the other, whatever they hold.
#[derive(Clone, Copy)]
pub struct Command<'a> {
    pub kind: Kind,
    pub values: [u64; FIELD_COUNT],
    pub last: &'a [u8],
}

impl Command<'_> {
    // What the field at an index says, from 0; 0 after the last one.
    #[tactic(auto, unfolding(crate::specs::Lines::value_at))]
    pub fn value_at(&self, i: usize) -> u64
        ensures { result ≡ lines.value_at self.now.values i }
    {
        self.values.get(i).copied().unwrap_or(0)
    }

    // The same as a number of an array. The line's limits keep it within 32 bits.
    pub fn number_at(&self, i: usize) -> u32 {
        u32::try_from(self.value_at(i)).unwrap_or(u32::MAX)
    }

    // Whether the first field names the memory, of memory and buffer.
    #[tactic(auto, unfolding(crate::specs::Lines::names_memory))]
    pub fn names_memory(&self) -> bool
        ensures { result ≡ lines.names_memory self.now.values }
    {
        self.value_at(0) == 0
    }
}

// One of two names: 0 for the first, 1 for the second.
fn named(text: &[u8], first: &[u8], second: &[u8]) -> Result<u64, Problem> {
    if text == first {
        return Ok(0);
    }
    if text == second {
        return Ok(1);
    }
    Err(Problem::NotALine)
}

// The largest number that has ten digits.
const TEN_DIGITS: u64 = 9999999999;

fn number(text: &[u8], most: u64) -> Result<u64, Problem> {
    match common_text::number_of(text) {
        None => Err(Problem::NotALine),
        Some(n) if most < n => Err(Problem::OutOfRange),
        Some(n) => Ok(n),
    }
}

// Bytes, by their count.
fn byte_count(text: &[u8]) -> Result<u64, Problem> {
    program_lines::byte_count(text).ok_or(Problem::NotALine)
}

// The bytes of a post, by their count.
fn posted(text: &[u8]) -> Result<u64, Problem> {
    let count = byte_count(text)?;
    if count > BUFFER_BYTES as u64 {
        return Err(Problem::TooManyBytes);
    }
    Ok(count)
}

// What the text of a field says.
fn field_value(text: &[u8], field: Field) -> Result<u64, Problem> {
    match field {
        Field::Flag => number(text, 1),
        Field::Master => number(text, MASTERS as u64 - 1),
        Field::Card => number(text, SLAVES as u64 - 1),
        Field::Byte => number(text, u64::from(u8::MAX)),
        Field::Half => number(text, u64::from(u16::MAX)),
        Field::Word => number(text, u64::from(u32::MAX)),
        Field::Long => number(text, TEN_DIGITS),
        Field::Store => named(text, b"memory", b"buffer"),
        Field::Direction => named(text, b"read", b"write"),
        Field::Bytes => byte_count(text),
        Field::Posted => posted(text),
    }
}

// Where the first piece of s ends: at its first comma, or at its end.
fn piece_end(s: &[u8]) -> usize
    ensures { result ≤ length s.now }
{
    s.iter().position(|b| *b == b',').unwrap_or(s.len())
}

// The fields after the word of a line, each after a comma; `after` is the line from the first of these on. That a text is no line
// at all is told before any other problem, and of two others the later one.
fn parse_fields(after: &[u8], form: Form) -> Result<Command<'_>, Problem> {
    let mut values = [0; FIELD_COUNT];
    let mut last = after;
    let mut rest = after;
    let mut problem = None;
    for (i, field) in form.fields.iter().enumerate() {
        if rest.is_empty() {
            return Err(Problem::NotALine);
        }
        let text = &rest[1..];
        let end = piece_end(text);
        last = &text[..end];
        rest = &text[end..];
        match field_value(last, *field) {
            Ok(value) => values[i] = value,
            Err(Problem::NotALine) => return Err(Problem::NotALine),
            Err(other) => problem = Some(other),
        }
    }
    if !rest.is_empty() {
        return Err(Problem::NotALine);
    }
    match problem {
        Some(problem) => Err(problem),
        None => Ok(Command {
            kind: form.kind,
            values,
            last,
        }),
    }
}

// What a line without its line feed says.
pub fn parse(line: &[u8]) -> Result<Command<'_>, Problem> {
    let end = piece_end(line);
    match form_of(&line[..end]) {
        Some(form) => parse_fields(&line[end..], form),
        None => Err(Problem::NotALine),
    }
}
