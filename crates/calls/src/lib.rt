// The call of a record, made on the board by value. One record at a time is what a host plays that keeps the state itself; who plays a
// whole trace calls the player, which asks the gate once.
#![tactic(auto)]

ghost use Rattle.std.specs.Prelude.{◌≡◌};
ghost use Rattle.memory.specs.Bytes.{mem_of};
ghost use Rattle.state.specs.Gate.{gate_mem};
ghost use Rattle.board.specs.Outcomes.{refused, after_of, behind};
ghost use Rattle.calls.specs.Called.{called};

use board::Outcome;
use state::State;
use trace::Call;

// What a call on the state alone gives where the lent lengths are the recorded ones; else the gate's refusal.
fn over_lent(
    s: State,
    given: Outcome,
    prg: &[u8],
    chr: &[u8],
    ram: &[u8],
    ciram: &[u8],
    exram: &[u8],
) -> Outcome
    ensures { result ≡ behind (gate_mem s (mem_of prg.now chr.now ram.now ciram.now exram.now)) (refused s) given }
{
    let gate = state::gate::passed(s, prg.len(), chr.len(), ram.len(), ciram.len(), exram.len());
    if let Err(refusal) = gate {
        return board::refuse(s, refusal);
    }
    given
}

pub fn call_on(
    s: State,
    prg: &[u8],
    chr: &mut [u8],
    ram: &mut [u8],
    ciram: &mut [u8],
    exram: &mut [u8],
    call: Call,
) -> Outcome
    ensures { after_of result (mem_of prg.now chr.new ram.new ciram.new exram.new)
        ≡ called call s (mem_of prg.now chr.old ram.old ciram.old exram.old) }
{
    match call {
        Call::Clock => {
            let given = board::clocks::clock(s);
            over_lent(s, given, prg, chr, ram, ciram, exram)
        }
        Call::CpuRead(addr) => board::cpu_side::cpu_read(s, prg, chr, ram, ciram, exram, addr),
        Call::CpuWrite(addr, val) => board::cpu_side::cpu_write(
            s, prg, chr, ram, ciram, exram, addr, val,
        ),
        Call::PpuRegister(addr, val) => {
            let given = board::ppu_registers::ppu_register(s, addr, val);
            over_lent(s, given, prg, chr, ram, ciram, exram)
        }
        Call::PpuFetch(addr) => board_ppu::fetches::ppu_fetch(s, prg, chr, ram, ciram, exram, addr),
        Call::Reset => {
            let given = board::state_calls::reset(s);
            over_lent(s, given, prg, chr, ram, ciram, exram)
        }
        Call::PpuWrite(addr, val) => board_ppu::stores::ppu_write(
            s, prg, chr, ram, ciram, exram, addr, val,
        ),
    }
}
