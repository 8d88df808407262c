// Fields of a line: words that are divided by one space, and decimal numbers.
ghost use Rattle.std.specs.Prelude.{◌≡◌, ◌≤◌, ◌∷◌, slice_index, EachIndex, IfSome};
ghost use Rattle.script.specs.Fields.{words_of, fields, field, numbers};

// The largest fields of 8, 16, 32 and 64 bits.
pub(crate) const BYTE: u64 = u8::MAX as u64;

pub(crate) const SHORT: u64 = u16::MAX as u64;

pub(crate) const WORD: u64 = u32::MAX as u64;

pub(crate) const LONG: u64 = u64::MAX;

// A word as a decimal number up to `most`.
pub(crate) fn field(word: &str, most: u64) -> Option<u64>
    ensures value { result ≡ field most word.now }
    ensures fit { IfSome result (λ n. n ≤ most) }
{
    // The library takes a sign in front, a script has none.
    if word.starts_with('+') {
        return None;
    }
    let n = word.parse::<u64>().ok()?;
    (n <= most).then_some(n)
}

// The first word of a text, and what comes after the space behind it.
pub(crate) fn cut(text: &str) -> (&str, Option<&str>)
    ensures { words_of text.now ≡ result.0.now ∷ fields result.1 }
{
    match text.split_once(' ') {
        Some((word, rest)) => (word, Some(rest)),
        None => (text, None),
    }
}

// Numbers up to the limits, one for each, that end the line.
// They are of one type, and cast by the command within their limits: reads by type would need a `?` for each field.
#[tactic(auto, using(crate::proofs::Limits::front_none, crate::proofs::Limits::fit, crate::proofs::Limits::short, crate::proofs::Limits::stuck, crate::proofs::Limits::ended))]
pub(crate) fn numbers<const N: usize>(rest: Option<&str>, limits: [u64; N]) -> Option<[u64; N]>
    ensures value { result ≡ numbers limits.entry (fields rest.entry) }
    ensures fit { IfSome result (λ ns. EachIndex ns (λ k. slice_index ns k ≤ slice_index limits.entry k)) }
{
    let mut read = limits;
    let mut rest = rest;
    for number in read.iter_mut() {
        let (word, more) = cut(rest?);
        *number = field(word, *number)?;
        rest = more;
    }
    match rest {
        None => Some(read),
        Some(_) => None,
    }
}
