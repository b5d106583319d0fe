// Worked cases over histories of the board, each by computation: no code runs from here, each function's contract holds what is promised.
#![tactic(auto)]

ghost use Rattle.theorems_cases.specs.Edges.{Edges, ShutOut, CasesAreHistories};
ghost use Rattle.theorems_cases.specs.WorkedReplay.{WorkedReplay};

// Document 01's cases marked P, one list; each is a history.
pub fn cases_marked_p()
    ensures { Edges × CasesAreHistories }
{}

// Boards that document 01 shuts out by name: cases with another outcome under each.
pub fn shut_out()
    ensures { ShutOut }
{}

// The worked input and refused traces, replayed over the cartridge of the program `replay`.
pub fn worked_replay()
    ensures { WorkedReplay }
{}
