// What a server runs is the board of demands 2 and 3: the calls of the host's library over lent words are a history. No code runs from here: each
// function's contract holds what is promised, and speaks of the contracts of the library's own functions.
#![tactic(auto)]

ghost use Rattle.theorems_host.specs.Exports.{ExportsTakeAll};
ghost use Rattle.theorems_host.specs.Interrupts.{InterruptIsHeard};
ghost use Rattle.theorems_host.specs.Printed.{TranscriptIsHistory};
ghost use Rattle.theorems_host.specs.Served.{HostIsHistory};

// A host's calls are a history, each answered as the board's definitions say; and every history is one of a host.
pub fn host_is_history()
    ensures { HostIsHistory }
{}

// No function that is exported to C asks anything of its caller.
pub fn exports_take_all()
    ensures { ExportsTakeAll }
{}

// The interrupt that a host hears of is that of its history.
pub fn interrupt_is_heard()
    ensures { InterruptIsHeard }
{}

// What the programs print is told by the history of the records, and stands whole in the buffer that they lend.
pub fn transcript_is_history()
    ensures { TranscriptIsHistory }
{}
