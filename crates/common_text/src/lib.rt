// Bytes to fields and decimal numbers (rules 1.2, 1.5), and back.
#![tactic(auto)]

ghost use Rattle.std.specs.Prelude.{◌≡◌, [], ◌∷◌, ◌≤◌, ◌<◌, ◌+◌, length};
ghost use Rattle.common_text.specs.Fields.{comma, line_feed, split, scan};
ghost use Rattle.common_text.specs.Fields.{number_of, most_numbers, numbers_of, with_number, no_numbers};
ghost use Rattle.common_text.specs.Digits.{digits, fields_text, line_text};
ghost use Rattle.common_text.specs.Code.Scanning.{behind, Cut, Put, HasRoom, Wrote, two_digits, four_digits};

use common_numbers::LINE_NUMBERS;

// The count of numbers behind which none has room. A count is a byte: with a wider one the compiled reader takes a fifth longer.
const FULL: u8 = LINE_NUMBERS as u8;

// The numbers of a line's fields behind the first; none where a field is malformed or there are more than any line has (rules
// 1.3, 7.1). The library allocates nothing, so they stand in an array with their count beside it.
#[derive(Clone, Copy)]
pub struct Numbers {
    pub count: u8,
    pub values: [u64; LINE_NUMBERS],
}

// The position of the first byte `b` of s, or the length of s where there is none: where the first piece of s ends (rule 1.2).
// `position` of the library takes 6 in a hundred more instructions for a line's numbers.
pub fn find_byte(s: &[u8], b: u8) -> usize
    ensures { Cut b s.now result }
{
    for (i, x) in s.iter().enumerate() {
        if *x == b {
            return i;
        }
    }
    s.len()
}

// The number that the digits spell (rule 1.5). Ten digits are below 2 ^ 64, so the value cannot wrap.
fn scan(s: &[u8]) -> Option<u64>
    requires { length s.now ≤ 10 }
    ensures { result ≡ scan 0 s.now }
{
    let mut value = 0;
    for c in s {
        match *c {
            digit @ b'0'..=b'9' => value = value * 10 + u64::from(digit - b'0'),
            _ => return None,
        }
    }
    Some(value)
}

// The number that a whole field spells (rule 1.5); none if it is malformed.
pub fn number_of(field: &[u8]) -> Option<u64>
    ensures { result ≡ number_of field.now }
{
    let n = field.len();
    if n == 0 || 10 < n {
        return None;
    }
    if 1 < n && field[0] == b'0' {
        return None;
    }
    scan(field)
}

// No numbers: a line with no further field, and the answer for a malformed one (rule 7.1).
#[tactic(auto, unfolding(crate::specs::Fields::no_numbers))]
fn no_numbers() -> Numbers
    ensures { result ≡ no_numbers }
{
    Numbers {
        count: 0,
        values: [0; LINE_NUMBERS],
    }
}

// One number more, if there is room for it.
#[tactic(auto, unfolding(crate::specs::Fields::with_number))]
fn with_number(ns: Numbers, n: u64) -> Numbers
    requires { ns.count < most_numbers }
    ensures { result ≡ with_number ns n }
{
    let Numbers { count, mut values } = ns;
    values[usize::from(count)] = n;
    Numbers {
        count: count + 1,
        values,
    }
}

// The numbers that the fields of a text spell (rules 1.3, 7.1). An empty text has one field, which is malformed. `split` of the
// library takes a tenth more instructions.
pub fn numbers_of(fields: &[u8]) -> Numbers
    ensures { result ≡ numbers_of (split comma fields.now) }
{
    let mut ns = no_numbers();
    let mut rest = fields;
    loop {
        let e = find_byte(rest, b',');
        if ns.count == FULL {
            return no_numbers();
        }
        let Some(n) = number_of(&rest[..e]) else {
            return no_numbers();
        };
        ns = with_number(ns, n);
        if e == rest.len() {
            return ns;
        }
        rest = &rest[e + 1..];
    }
}

// The numbers of the fields behind a line's first, which ends at `position` (rule 1.3): none where the line ends there.
pub fn numbers_behind(line: &[u8], position: usize) -> Numbers
    ensures { result ≡ numbers_of (behind comma line.now position) }
{
    if position < line.len() {
        numbers_of(&line[position + 1..])
    } else {
        no_numbers()
    }
}

// Writes the two digits of n, with a 0 in front where n has only one. This function and the five after it differ in the count of
// digits, and are not one: a loop over the digits, or a call for each of them, takes more instructions. They are lent the output
// and the position by themselves: as methods of `Writer` they are not inlined, and `print_table` takes 6 in a hundred more, or with
// `#[inline(always)]` 5 (docs/DECISIONS.md, "The table").
fn put_two(out: &mut [u8], at: usize, n: u64) -> usize
    requires n_bound { n < 100 }
    requires at_in_bounds { at + 2 ≤ length out.old }
    ensures { Put out.old at (two_digits n) out.new result }
{
    out[at] = (48 + n / 10) as u8;
    out[at + 1] = (48 + n % 10) as u8;
    at + 2
}

// Writes the four digits of n, with a 0 in front for each that n lacks.
fn put_four(out: &mut [u8], at: usize, n: u64) -> usize
    requires n_bound { n < 10000 }
    requires at_in_bounds { at + 4 ≤ length out.old }
    ensures { Put out.old at (four_digits n) out.new result }
{
    let next = put_two(out, at, n / 100);
    put_two(out, next, n % 100)
}

// Writes n in decimal where it has one or two digits.
fn put_to_two(out: &mut [u8], at: usize, n: u64) -> usize
    requires n_bound { n < 100 }
    requires n_in_bounds { at + length (digits n) ≤ length out.old }
    ensures { Put out.old at (digits n) out.new result }
{
    if n < 10 {
        out[at] = (48 + n) as u8;
        return at + 1;
    }
    put_two(out, at, n)
}

// Writes n in decimal where it has at most four digits.
fn put_to_four(out: &mut [u8], at: usize, n: u64) -> usize
    requires n_bound { n < 10000 }
    requires n_in_bounds { at + length (digits n) ≤ length out.old }
    ensures { Put out.old at (digits n) out.new result }
{
    if n < 100 {
        return put_to_two(out, at, n);
    }
    let next = put_to_two(out, at, n / 100);
    put_two(out, next, n % 100)
}

// Writes n in decimal where it has at most eight digits.
fn put_to_eight(out: &mut [u8], at: usize, n: u64) -> usize
    requires n_bound { n < 100000000 }
    requires n_in_bounds { at + length (digits n) ≤ length out.old }
    ensures { Put out.old at (digits n) out.new result }
{
    if n < 10000 {
        return put_to_four(out, at, n);
    }
    let next = put_to_four(out, at, n / 10000);
    put_four(out, next, n % 10000)
}

// Writes n in decimal, whatever its length: what stands before the last four digits goes first.
fn put_long(out: &mut [u8], at: usize, n: u64) -> usize
    requires { at + length (digits n) ≤ length out.old }
    ensures { Put out.old at (digits n) out.new result }
{
    if n < 100000000 {
        return put_to_eight(out, at, n);
    }
    let next = put_long(out, at, n / 10000);
    put_four(out, next, n % 10000)
}

// An output, and the position in it that is written next. What it writes stands after what it wrote before.
#[derive(Drop)]
pub struct Writer<'a> {
    pub out: &'a mut [u8],
    pub at: usize,
}

impl Writer<'_> {
    // Writes s, for instance a word of rule 1.3.
    pub fn put_bytes(&mut self, s: &[u8])
        requires { HasRoom self.old s.now }
        ensures { Wrote self.old s.now self.new }
    {
        let at = self.at;
        let end = at + s.len();
        self.out[at..end].copy_from_slice(s);
        self.at = end;
    }

    // Writes n in decimal (rule 1.5), the first digit first, so that no length has to be known. Nearly every number has at most
    // eight digits, and those are written by functions that can be inlined: a call of itself for each digit is three times the
    // instructions.
    pub fn put_number(&mut self, n: u64)
        requires { HasRoom self.old (digits n) }
        ensures { Wrote self.old (digits n) self.new }
    {
        let at = self.at;
        self.at = if n < 100000000 {
            put_to_eight(&mut *self.out, at, n)
        } else {
            put_long(&mut *self.out, at, n)
        };
    }

    // Writes a comma and n in decimal (rule 1.2).
    pub fn put_field(&mut self, n: u64)
        requires { HasRoom self.old (comma ∷ digits n) }
        ensures { Wrote self.old (comma ∷ digits n) self.new }
    {
        let at = self.at;
        self.out[at] = b',';
        self.at = at + 1;
        self.put_number(n);
    }

    // Writes a comma and a number, for each number (rule 1.2).
    pub fn put_fields(&mut self, numbers: &[u64])
        requires { HasRoom self.old (fields_text numbers.now) }
        ensures { Wrote self.old (fields_text numbers.now) self.new }
    {
        for n in numbers {
            self.put_field(*n);
        }
    }

    // Writes the line feed after a line (rule 1.2).
    pub fn put_end(&mut self)
        requires { HasRoom self.old (line_feed ∷ []) }
        ensures { Wrote self.old (line_feed ∷ []) self.new }
    {
        let at = self.at;
        self.out[at] = b'\n';
        self.at = at + 1;
    }

    // Writes a line: its first field, its numbers, the line feed (rules 1.2, 1.3).
    pub fn put_line(&mut self, word: &[u8], numbers: &[u64])
        requires { HasRoom self.old (line_text word.now numbers.now) }
        ensures { Wrote self.old (line_text word.now numbers.now) self.new }
    {
        self.put_bytes(word);
        self.put_fields(numbers);
        self.put_end();
    }
}

// How many bytes n takes in decimal (rule 1.5), so that a writer knows a text's length before it writes.
#[tactic(auto, using(crate::proofs::Decimal::digits_power_length, crate::proofs::Decimal::digits_small_length))]
pub fn digit_count(n: u64) -> usize
    ensures { result ≡ length (digits n) }
{
    n.checked_ilog10().map_or(1, |power| power as usize + 1)
}

// How many bytes the fields of a line's numbers take. A line has few numbers, so that the sum cannot wrap.
pub fn fields_length(numbers: &[u64]) -> usize
    requires { length numbers.now ≤ most_numbers }
    ensures { result ≡ length (fields_text numbers.now) }
{
    let mut sum = 0;
    for n in numbers {
        sum += 1 + digit_count(*n);
    }
    sum
}
