// Bytes as pairs of hex digits.
ghost use Rattle.std.specs.Prelude.{◌<◌, IfSome};

// What a lower case hex digit counts.
fn digit_value(c: u8) -> Option<u8>
    ensures { IfSome result (λ d. d < 16) }
{
    match c {
        b'0'..=b'9' => Some(c - b'0'),
        b'a'..=b'f' => Some(c - b'a' + 10),
        _ => None,
    }
}

// The count of bytes that a field spells: `-` has none, any other field spells at least one.
pub fn byte_count(field: &[u8]) -> Option<u64> {
    match field {
        [] => None,
        b"-" => Some(0),
        _ => {
            let paired = field.len() % 2 == 0;
            let spells = paired && field.iter().all(|c| digit_value(*c).is_some());
            spells.then_some((field.len() / 2) as u64)
        }
    }
}

// The same, and 0 for a byte that is no digit.
fn digit_or_zero(c: u8) -> u8
    ensures { result < 16 }
{
    digit_value(c).unwrap_or(0)
}

// Puts the bytes that a field spells into out, as many as both have.
pub fn decode(field: &[u8], out: &mut [u8]) {
    for (byte, pair) in out.iter_mut().zip(field.chunks_exact(2)) {
        if let [high, low] = pair {
            *byte = digit_or_zero(*high) * 16 + digit_or_zero(*low);
        }
    }
}

// The digit that counts d.
pub fn glyph(d: u8) -> u8
    requires { d < 16 }
{
    if d < 10 { b'0' + d } else { b'a' + (d - 10) }
}
