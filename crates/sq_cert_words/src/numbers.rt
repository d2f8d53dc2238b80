// Numbers at the front of a text.
ghost use Rattle.std.specs.Prelude.{◌≡◌, ◌≤◌, IfSome, option_map, option_copied};
ghost use Rattle.sq_cert_words.specs.Numbers as spec;

/// The number at the front of the text and what is behind it. Digits that go on past `most` are no
/// number; behind a leading 0 the number ends.
pub fn number(most: u64, text: &[u8]) -> Option<(u64, &[u8])>
    requires { 9 ≤ most }
    ensures value { option_map (λ p. (p.0, p.1.now)) result ≡ spec.number most text.now }
    ensures within { IfSome result (λ p. p.0 ≤ most) }
{
    let (first, rest) = text.split_first()?;
    if *first == b'0' {
        Some((0, rest))
    } else if first.is_ascii_digit() {
        digits_on(most, u64::from(*first - b'0'), rest)
    } else {
        None
    }
}

/// The number that begins with the digits of `value` and goes on at the front of the text.
fn digits_on(most: u64, value: u64, text: &[u8]) -> Option<(u64, &[u8])>
    requires { value ≤ most }
    ensures value { option_map (λ p. (p.0, p.1.now)) result ≡ spec.digits_on most value text.now }
    ensures within { IfSome result (λ p. p.0 ≤ most) }
{
    let mut value = value;
    let mut rest = text;
    'digits: while let Some((digit, behind)) = rest.split_first() {
        if !digit.is_ascii_digit() {
            return Some((value, rest));
        }
        let longer = u128::from(value) * 10 + u128::from(*digit - b'0');
        if longer > u128::from(most) {
            return None;
        }
        value = longer as u64;
        rest = behind;
    }
    Some((value, rest))
}

/// The number that the whole text is. None where it is none below 2^32.
pub fn last_number(text: &[u8]) -> Option<u32>
    ensures { result ≡ spec.last_number text.now }
{
    let (number, rest) = number(u64::from(u32::MAX), text)?;
    if rest.is_empty() {
        Some(number as u32)
    } else {
        None
    }
}

// What is behind the slash that the text begins with.
fn behind_slash(text: &[u8]) -> Option<&[u8]>
    ensures { option_map (λ t. t.now) result ≡ spec.behind_slash text.now }
{
    match text.split_first() {
        Some((b'/', behind)) => Some(behind),
        _ => None,
    }
}

/// The two numbers with a slash between them that the whole text is.
pub fn two_numbers(text: &[u8]) -> Option<(u32, u32)>
    ensures { result ≡ spec.two_numbers text.now }
{
    let (first, rest) = number(u64::from(u32::MAX), text)?;
    let second = last_number(behind_slash(rest)?)?;
    Some((first as u32, second))
}

/// The three numbers with slashes between them that the whole text is.
pub fn three_numbers(text: &[u8]) -> Option<(u32, (u32, u32))>
    ensures { result ≡ spec.three_numbers text.now }
{
    let (first, rest) = number(u64::from(u32::MAX), text)?;
    let others = two_numbers(behind_slash(rest)?)?;
    Some((first as u32, others))
}
