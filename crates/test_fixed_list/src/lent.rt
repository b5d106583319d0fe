// The board's calls, over the buffers that are lent for each.
use board::Outcome;
use board::loads::Settings;
use state::State;
use trace::Call;

#[derive(Drop)]
pub struct Lent<'a> {
    pub prg: &'a [u8],
    pub chr: &'a mut [u8],
    pub ram: &'a mut [u8],
    pub ciram: &'a mut [u8],
    pub exram: &'a mut [u8],
}

impl Lent<'_> {
    pub fn load(&self, settings: Settings) -> Outcome {
        board::loads::load(
            self.prg, self.chr, self.ram, self.ciram, self.exram, settings,
        )
    }

    pub fn call_on(&mut self, s: State, call: Call) -> Outcome {
        calls::call_on(
            s, self.prg, self.chr, self.ram, self.ciram, self.exram, call,
        )
    }
}
