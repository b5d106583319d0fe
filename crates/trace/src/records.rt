// The record at a place of a trace.
ghost use Rattle.std.specs.Prelude.{◌≡◌, ℕ, Ok};
ghost use Rattle.trace.specs.Numbers.{address_at, value_at};
ghost use Rattle.trace.specs.Records.{numbered, record_at};

use crate::{Call, Found, numbers};
use answers::Refusal;
use memory::{CpuAddr, PpuAddr};

// The address of a record, and the place after it.
fn address(trace: &[u8], at: usize) -> Result<(u16, usize), Refusal>
    ensures { result ≡ numbered (address_at trace.now at) (λ (address next : ℕ). Ok (address, next)) }
{
    let (address, next) = numbers::address_at(trace, at)?;
    Ok((address as u16, next))
}

// The address and the value of a record, and the place after them.
fn address_and_value(trace: &[u8], at: usize) -> Result<(u16, u8, usize), Refusal>
    ensures { result ≡ numbered (address_at trace.now at)
        (λ (address behind : ℕ). numbered (value_at trace.now behind) (λ (value next : ℕ). Ok (address, value, next))) }
{
    let (address, behind) = address(trace, at)?;
    let (value, next) = numbers::value_at(trace, behind)?;
    Ok((address, value as u8, next))
}

// What stands at a place of a trace, the kinds that traces have most asked first. The refused record's place is `at`, the offset of its kind byte.
#[tactic(auto, using(crate::proofs::NumberLaws::within_limit, crate::proofs::RecordLaws::none_left))]
pub fn record_at(trace: &[u8], at: usize) -> Found
    ensures { result ≡ record_at trace.now at }
{
    let Some(&kind) = trace.get(at) else {
        return Ok(None);
    };
    if kind == 4 {
        let (address, next) = numbers::address_at(trace, at + 1)?;
        return Ok(Some((Call::PpuFetch(PpuAddr(address as u16)), next)));
    }
    if kind == 0 {
        return Ok(Some((Call::Clock, at + 1)));
    }
    if kind == 1 {
        let (address, next) = numbers::address_at(trace, at + 1)?;
        return Ok(Some((Call::CpuRead(CpuAddr(address as u16)), next)));
    }
    if kind == 5 {
        return Ok(Some((Call::Reset, at + 1)));
    }
    let (call, next) = match kind {
        2 => {
            let (address, value, next) = address_and_value(trace, at + 1)?;
            (Call::CpuWrite(CpuAddr(address), value), next)
        }
        3 => {
            let (address, value, next) = address_and_value(trace, at + 1)?;
            (Call::PpuRegister(CpuAddr(address), value), next)
        }
        6 => {
            let (address, value, next) = address_and_value(trace, at + 1)?;
            (Call::PpuWrite(PpuAddr(address), value), next)
        }
        _ => return Err(Refusal::Kind),
    };
    Ok(Some((call, next)))
}
