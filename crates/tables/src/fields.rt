//! The first field of a CSV text, with what ends it. The grammar is RFC 4180's, in specs/Grammar.antt.

ghost use Rattle.std.specs.Prelude.{◌≡◌, ◌+◌, ◌<◌, ◌^◌, IfSome, is_some, drop, length};
ghost use Rattle.std.specs.List.{prefix_len, take_while};
ghost use Rattle.std.specs.Char.{is_ascii_digit};
ghost use Rattle.tables.specs.Grammar.{textdata, separator, field_of};
ghost use Rattle.tables.specs.Numbers.{number_in, read_digits};
ghost use Rattle.tables.specs.Fields.{held_of, ended_by, first_field};

/// What a field ends with.
#[derive(Clone, Copy, Debug, PartialEq, Eq)]
pub enum Ending {
    /// A comma: another field follows.
    Another,
    /// The row's end.
    Last,
    /// What the grammar does not allow there. It is an ending among the others: who goes from field to field matches on all three.
    Broken,
}

#[derive(Clone, Copy, Debug, PartialEq, Eq)]
pub struct Field {
    /// What it holds, if that is a 32-bit number.
    pub number: Option<u32>,
    /// How many bytes it takes with its ending.
    pub length: usize,
    pub ending: Ending,
}

/// The first number that 32 bits do not hold.
const TOO_LARGE: u64 = 4_294_967_296;

impl Field {
    /// Nothing is told of a field that breaks its row.
    const BROKEN: Field = Field {
        number: None,
        length: 0,
        ending: Ending::Broken,
    };
}

#[tactic(auto, unfolding(crate::specs::Grammar::textdata))]
fn is_textdata(byte: u8) -> bool
    ensures { result ≡ textdata byte }
{
    matches!(byte, 32..=33 | 35..=43 | 45..=126)
}

/// What quotes alone allow beside a doubled quote.
#[tactic(auto, unfolding(crate::specs::Grammar::separator))]
fn is_separator(byte: u8) -> bool
    ensures { result ≡ separator byte }
{
    matches!(byte, b',' | b'\r' | b'\n')
}

/// The number that the digits in front of a text spell, which are so many and come to this value.
fn spelled(text: &[u8], long: usize, value: u64) -> Option<u32>
    requires long { long ≡ prefix_len is_ascii_digit text.now }
    requires value { value ≡ read_digits 0 text.now }
    ensures { result ≡ number_in (take_while is_ascii_digit text.now) }
{
    if long == 0 {
        return None;
    }
    // No zero leads.
    if long > 1 && text[0] == b'0' {
        return None;
    }
    u32::try_from(value).ok()
}

/// The number that the digits in front of a text spell, and the text after them.
fn digits(text: &[u8]) -> (Option<u32>, &[u8])
    ensures number { result.0 ≡ number_in (take_while is_ascii_digit text.now) }
    ensures rest { result.1.now ≡ drop (prefix_len is_ascii_digit text.now) text.now }
{
    let mut value = 0;
    let mut rest = text;
    // No chain over the digits: the text after them is given back too.
    while let [byte @ b'0'..=b'9', after @ ..] = rest {
        let digit = u64::from(*byte - b'0');
        value = (10 * value + digit).min(TOO_LARGE);
        rest = after;
    }
    (spelled(text, text.len() - rest.len(), value), rest)
}

/// The text after what a field holds, inside quotes or without.
fn after_held(text: &[u8], quoted: bool) -> &[u8]
    ensures { result.now ≡ (held_of quoted text.now).after }
{
    let mut rest = text;
    // No chain over the bytes: a doubled quote takes two of them.
    loop {
        rest = match rest {
            [byte, after @ ..] if is_textdata(*byte) || quoted && is_separator(*byte) => after,
            [b'"', b'"', after @ ..] if quoted => after,
            _ => return rest,
        };
    }
}

/// The number that a field holds, inside quotes or without, and the text after it.
fn held(text: &[u8], quoted: bool) -> (Option<u32>, &[u8])
    ensures number { result.0 ≡ number_in (held_of quoted text.now).holds }
    ensures rest { result.1.now ≡ (held_of quoted text.now).after }
{
    let (number, others) = digits(text);
    // Most fields are numbers without quotes, and are read to their end here.
    if let [b',', ..] = others
        && !quoted
    {
        return (number, others);
    }
    let rest = after_held(others, quoted);
    if rest.len() == others.len() {
        (number, rest)
    } else {
        (None, rest)
    }
}

/// What a field holds, and the text after it with its quotes, if these are closed.
fn content(text: &[u8]) -> Option<(Option<u32>, &[u8])>
    ensures allowed { is_some result ≡ (field_of text.now).allowed }
    ensures number { IfSome result (λ found. found.0 ≡ number_in (field_of text.now).holds) }
    ensures rest { IfSome result (λ found. found.1.now ≡ (field_of text.now).after) }
{
    match text {
        [b'"', inside @ ..] => match held(inside, true) {
            (number, [b'"', after @ ..]) => Some((number, after)),
            _ => None,
        },
        _ => Some(held(text, false)),
    }
}

/// The field whose content took so many bytes, by the text after these.
fn ended(number: Option<u32>, long: usize, after: &[u8]) -> Field
    requires { long + length after.now < 2 ^ 64 }
    ensures { result ≡ ended_by number long after.now }
{
    match after {
        [] => Field {
            number,
            length: long,
            ending: Ending::Last,
        },
        [b',', ..] => Field {
            number,
            length: long + 1,
            ending: Ending::Another,
        },
        [b'\r', b'\n', ..] => Field {
            number,
            length: long + 2,
            ending: Ending::Last,
        },
        _ => Field::BROKEN,
    }
}

pub fn first_field(text: &[u8]) -> Field
    ensures { result ≡ first_field text.now }
{
    match content(text) {
        Some((number, after)) => ended(number, text.len() - after.len(), after),
        None => Field::BROKEN,
    }
}
