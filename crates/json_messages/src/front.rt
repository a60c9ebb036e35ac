//! What stands in front of the bytes of a stream.

ghost use Rattle.std.specs.Prelude.{◌≡◌, ◌≤◌, ◌+◌, IfSome, drop, length, take, true};
ghost use Rattle.std.specs.List.{prefix_len};
ghost use Rattle.json_messages.specs.Messages.{begins_field, front_of, header_len, is_blank};
ghost use Rattle.json_messages.specs.Messages.{is_length_name, length_in, most_body, number_in};
ghost use Rattle.json_messages.specs.Messages.{skip, value_in};

/// What stands in front of the bytes of a stream.
#[derive(Clone, Copy)]
pub enum Front {
    /// A whole message, whose body has the bytes from `start` up to `end`.
    Message { start: usize, end: usize },
    /// No whole message so far.
    Open,
    /// A header that gives no length of a body, or one of more than 16,777,216 bytes.
    NoLength,
    /// A header of more than 4,096 bytes.
    LongHeader,
}

/// The most bytes of a body.
const MOST_BODY: usize = 16_777_216;

/// The most bytes of a header, its blank line left out.
const MOST_HEADER: usize = 4096;

/// Returns how many bytes stand before the first CR LF CR LF.
#[tactic(auto, using(crate::proofs::Fronts::header_end))]
fn header_len(bytes: &[u8]) -> Option<usize>
    ensures len { result ≡ header_len bytes.now }
    ensures within { IfSome result (λ n. n + 4 ≤ length bytes.now) }
{
    for index in 0..bytes.len() {
        if bytes[index..].starts_with(b"\r\n\r\n") {
            return Some(index);
        }
    }
    None
}

/// Returns the number that stands in front: at least one digit, up to a CR or to the end.
#[tactic(auto, using(crate::proofs::Fronts::number_stop, crate::proofs::Fronts::number_refused, crate::proofs::Fronts::number_step, crate::proofs::Fronts::number_end), unfolding(crate::specs::Messages::with_digit))]
fn number_in(bytes: &[u8]) -> Option<usize>
    ensures value { result ≡ number_in bytes.now }
    ensures within { IfSome result (λ n. n ≤ most_body) }
{
    if !matches!(bytes, [b'0'..=b'9', ..]) {
        return None;
    }
    let mut number = 0;
    for byte in bytes {
        if *byte == b'\r' {
            return Some(number);
        }
        if *byte < b'0' || *byte > b'9' {
            return None;
        }
        number = number * 10 + (*byte - b'0') as usize;
        if number > MOST_BODY {
            return None;
        }
    }
    Some(number)
}

/// The bytes of the name of the field that gives the length, and of the colon behind it.
const NAME_LEN: usize = 15;

/// Returns whether a text is that name, in letters of either case, and the colon.
fn is_length_name(text: &[u8]) -> bool
    ensures { result ≡ is_length_name text.now }
{
    text.eq_ignore_ascii_case(b"Content-Length:")
}

/// Returns so many bytes of the front, or all if there are fewer.
fn front_part(bytes: &[u8]) -> &[u8]
    ensures { result.now ≡ take 15 bytes.now }
{
    if bytes.len() > NAME_LEN {
        return &bytes[..NAME_LEN];
    }
    bytes
}

/// Returns whether the field that gives the length begins here.
fn begins_field(bytes: &[u8]) -> bool
    ensures { result ≡ begins_field bytes.now }
{
    is_length_name(front_part(bytes))
}

/// Returns whether a byte is a blank.
fn is_blank(byte: u8) -> bool
    ensures { result ≡ is_blank byte }
{
    byte == b' ' || byte == b'\t'
}

/// Counts the blanks at the front.
fn blanks(bytes: &[u8]) -> usize
    ensures counted { result ≡ prefix_len is_blank bytes.now }
    ensures inside { result ≤ length bytes.now }
{
    bytes.iter().take_while(|byte| is_blank(**byte)).count()
}

/// Returns bytes without the blanks at their front.
fn skip(bytes: &[u8]) -> &[u8]
    ensures { result.now ≡ skip bytes.now }
{
    &bytes[blanks(bytes)..]
}

/// Returns what stands behind the name of a field and its colon.
fn behind_name(field: &[u8]) -> &[u8]
    ensures { result.now ≡ drop 15 field.now }
{
    if NAME_LEN <= field.len() {
        &field[NAME_LEN..]
    } else {
        &field[field.len()..]
    }
}

/// Returns the number of a field that gives the length, before which blanks may stand.
fn value_in(field: &[u8]) -> Option<usize>
    ensures value { result ≡ value_in field.now }
    ensures within { IfSome result (λ n. n ≤ most_body) }
{
    number_in(skip(behind_name(field)))
}

/// Returns the length that the first field Content-Length of a header gives.
#[tactic(auto, using(crate::proofs::Fronts::length_end))]
fn length_in(header: &[u8]) -> Option<usize>
    ensures value { result ≡ length_in true header.now }
    ensures within { IfSome result (λ n. n ≤ most_body) }
{
    let mut begins = true;
    for index in 0..header.len() {
        if begins && begins_field(&header[index..]) {
            return value_in(&header[index..]);
        }
        begins = header[index] == b'\n';
    }
    None
}

/// Returns what stands in front. Reads no byte of the body.
pub fn front_of(bytes: &[u8]) -> Front
    ensures { result ≡ front_of bytes.now }
{
    match header_len(bytes) {
        None if bytes.len() > MOST_HEADER + 3 => Front::LongHeader,
        None => Front::Open,
        Some(header) if header > MOST_HEADER => Front::LongHeader,
        Some(header) => match length_in(&bytes[..header]) {
            None => Front::NoLength,
            Some(len) if bytes.len() < header + 4 + len => Front::Open,
            Some(len) => Front::Message {
                start: header + 4,
                end: header + 4 + len,
            },
        },
    }
}
