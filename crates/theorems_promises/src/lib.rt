// No code that runs: each function's contract holds what is promised, so that a proof that goes missing fails the check.
#![tactic(auto)]

ghost use Rattle.theorems_promises.specs.Address.{AddressStays, SameFetch};
ghost use Rattle.theorems_promises.specs.Kept.{GateStaysOpen};
ghost use Rattle.theorems_promises.specs.Loading.{LoadRefusals};
ghost use Rattle.theorems_promises.specs.Refused.{WhoIsRefused};

// An accepted call leads to no refusal 4 or 5.
pub fn gate_stays_open()
    ensures { GateStaysOpen }
{}

// Behind an open gate every call leaves the split tile's address at 959 or less, so a fetch without refusal 8 is the fetch that had it.
pub fn address_stays()
    ensures { AddressStays × SameFetch }
{}

// Which calls are refused, and with which number.
pub fn who_is_refused()
    ensures { WhoIsRefused }
{}

// Which loads are refused, and with which number.
pub fn load_refusals()
    ensures { LoadRefusals }
{}
