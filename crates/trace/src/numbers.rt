// A number of a trace, in groups of seven bits, read at a place. One function for each group: an address has at most three, a value two.
ghost use Rattle.std.specs.Prelude.{◌≡◌, ◌*◌, ◌<◌, ◌≤◌, drop};
ghost use Rattle.trace.specs.Numbers.{grouped, numeral, limited, address_at, value_at};

use crate::{BadNumber, Numeral};

// The last group that a number may have, over groups that say `low`. A top bit makes the number exceed its limit: no test of its own.
fn last_at(trace: &[u8], at: usize, low: u32, weight: u32, limit: u32) -> Numeral
    requires { (low < weight) × (weight ≤ 16384) × (limit < weight * 128) }
    ensures { result ≡ limited limit (grouped low weight (numeral 1 at (drop at trace.now))) }
{
    let Some(&byte) = trace.get(at) else {
        return Err(BadNumber::Cut);
    };
    let last = u32::from(byte);
    if last == 0 {
        return Err(BadNumber::Padded);
    }
    let value = low + weight * last;
    if limit < value {
        return Err(BadNumber::Above);
    }
    Ok((value, at + 1))
}

// The second of an address's groups, over a first one that says `low`.
fn second_at(trace: &[u8], at: usize, low: u32) -> Numeral
    requires { low < 128 }
    ensures { result ≡ limited 65535 (grouped low 128 (numeral 2 at (drop at trace.now))) }
{
    let Some(&byte) = trace.get(at) else {
        return Err(BadNumber::Cut);
    };
    let second = u32::from(byte);
    if second == 0 {
        return Err(BadNumber::Padded);
    }
    if second < 128 {
        return Ok((low + 128 * second, at + 1));
    }
    last_at(trace, at + 1, low + 128 * (second % 128), 16384, 65535)
}

// The address at a place.
pub fn address_at(trace: &[u8], at: usize) -> Numeral
    ensures { result ≡ address_at trace.now at }
{
    let Some(&byte) = trace.get(at) else {
        return Err(BadNumber::Cut);
    };
    let first = u32::from(byte);
    if first < 128 {
        return Ok((first, at + 1));
    }
    second_at(trace, at + 1, first % 128)
}

// The value at a place.
pub fn value_at(trace: &[u8], at: usize) -> Numeral
    ensures { result ≡ value_at trace.now at }
{
    let Some(&byte) = trace.get(at) else {
        return Err(BadNumber::Cut);
    };
    let low = u32::from(byte);
    if low < 128 {
        return Ok((low, at + 1));
    }
    last_at(trace, at + 1, low % 128, 128, 255)
}
