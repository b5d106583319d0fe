// What the program `replay` prints. 01, "Trace". `printed` writes the lines of a replay, `cartridge` plays a trace over 01's cartridge.
#![tactic(auto)]

ghost use Rattle.transcript.specs.Lines.{PrintedIsLines, TranscriptIsLines};

pub mod cartridge;
pub mod printed;

// No code: its contract holds that what is printed by the log, and all that the program prints, is what the board's definitions tell.
pub fn promises()
    ensures { PrintedIsLines × TranscriptIsLines }
{}
