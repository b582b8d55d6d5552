// The parts of a line of text, and the numbers and names that stand there, for the test programs. A line is bytes and
// no `str`, since its text may be any bytes.
#![tactic(auto)]

ghost use Rattle.std.specs.Prelude.{◌≡◌, ◌<◌, ◌≤◌, length, None, Some, Ok, Err, MatchOption, MatchResult, IfSome};
ghost use Rattle.std.specs.Char.{is_ascii_digit};
ghost use Rattle.std.specs.List.{AllPass};
ghost use Rattle.lines.specs.Line.{Within, Lacks, Parted, Skipped, Trimmed, is_row, after_name};
ghost use Rattle.lines.specs.Numbers.{Numbered, number_at, decimal, digits_in, value_of, read_until};

// Numbers are decimal.
const BASE: u64 = 10;

// Whether a line of an input says a row. One that is empty or begins with `#` says none.
pub fn is_row(line: &[u8]) -> bool
    ensures { result ≡ is_row line.now }
{
    line.first().is_some_and(|first| *first != b'#')
}

// What stands before the first such byte, and what stands after it.
pub fn split_once(line: &[u8], byte: u8) -> Option<(&[u8], &[u8])>
    ensures { MatchOption result (Lacks line.now byte)
        (λ parts. Parted line.now byte parts.0.now parts.1.now) }
{
    let at = line.iter().position(|found| *found == byte)?;
    Some((&line[..at], &line[at + 1..]))
}

// What stands after this name, if the line begins with it.
pub fn after<'a>(line: &'a [u8], name: &[u8]) -> Option<&'a [u8]>
    ensures within { IfSome result (λ rest. Within line.now rest.now) }
    ensures is { MatchOption result (after_name line.now name.now ≡ None)
        (λ rest. after_name line.now name.now ≡ Some rest.now) }
{
    line.strip_prefix(name)
}

// The line without the spaces at its beginning. Library `trim_ascii_start` would take tabs with them.
pub fn skip(line: &[u8]) -> &[u8]
    ensures { Skipped line.now result.now }
{
    let start = line
        .iter()
        .position(|byte| *byte != b' ')
        .unwrap_or(line.len());
    &line[start..]
}

// The line without the spaces at its end. Library `trim_ascii_end` would take tabs with them.
pub fn trim(line: &[u8]) -> &[u8]
    ensures { Trimmed line.now result.now }
{
    let end = line
        .iter()
        .rposition(|byte| *byte != b' ')
        .map_or(0, |last| last + 1);
    &line[..end]
}

// How many digits begin the line.
fn digits_in(line: &[u8]) -> usize
    ensures { result ≡ digits_in line.now }
{
    line.iter().take_while(|byte| byte.is_ascii_digit()).count()
}

// The value of these digits, if it is at most so large; else how many of them are read until it is larger. By no
// `parse`: the bytes would be made a text first, which can fail, and that failure, which digits do not have, would be
// told as a number too large.
fn value_of(digits: &[u8], most: u32) -> Result<u32, usize>
    requires { AllPass is_ascii_digit digits.now }
    ensures { MatchResult result
        (λ value. (value ≡ value_of digits.now) × (value ≤ most))
        (λ read. (most < value_of digits.now) × (read ≡ read_until most 0 digits.now)
        × (read ≤ length digits.now)) }
{
    let limit = u64::from(most);
    let mut value: u64 = 0;
    for (place, digit) in digits.iter().enumerate() {
        value = value * BASE + u64::from(*digit - b'0');
        if value > limit {
            return Err(place + 1);
        }
    }
    Ok(value as u32)
}

// The number that begins the line, if it is at most so large, and what stands after it; else what stands after the
// digits that were read: after all there are, or after the first one by which the number is too large.
pub fn number(line: &[u8], most: u32) -> Result<(u32, &[u8]), &[u8]>
    ensures bounds { MatchResult result (λ read. Numbered line.now most read.0 read.1.now)
        (λ rest. Within line.now rest.now) }
    ensures is { MatchResult result
        (λ read. number_at line.now most ≡ Ok (decimal read.0 read.1.now))
        (λ rest. number_at line.now most ≡ Err rest.now) }
{
    let (digits, rest) = line.split_at(digits_in(line));
    if digits.is_empty() {
        return Err(line);
    }
    match value_of(digits, most) {
        Ok(value) => Ok((value, rest)),
        Err(read) => Err(&line[read..]),
    }
}
