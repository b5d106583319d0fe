// The promises as theorems over histories: accepted calls one after the other from an accepted load, each over the state and the buffers as the
// call before it left them. No code runs from here: each function's contract holds what is promised, so that a proof that goes missing fails
// the check. specs/Boards.antt and specs/Histories.antt say what a call and a history are.
#![tactic(auto)]

ghost use Rattle.theorems_histories.specs.Accepted.{Along};
ghost use Rattle.theorems_histories.specs.Code.{CodeIsTheBoard, EveryCallTakesAll};
ghost use Rattle.theorems_histories.specs.Interrupts.{BoardDemand3, Asked};
ghost use Rattle.theorems_histories.specs.Refusals.{Refusals};
ghost use Rattle.theorems_histories.specs.Replays.{Replays};
ghost use Rattle.theorems_histories.specs.Results.{OneResult};
ghost use Rattle.theorems_histories.specs.Waits.{Waits};

// Every call takes all inputs; which are refused, on every board, and with which number; a refused call changes nothing.
pub fn demand_1()
    ensures { EveryCallTakesAll × Refusals }
{}

// The code is the definitions' board, and a history of its calls has one result: every answer, the page tables and the memory are the definitions'.
pub fn demand_2()
    ensures { CodeIsTheBoard × OneResult }
{}

// Replay of a trace is a history.
pub fn replay_is_history()
    ensures { Replays }
{}

// The history alone tells the scanline interrupt.
pub fn demand_3()
    ensures { BoardDemand3 × Asked × Waits }
{}

// Which calls are accepted along a history, and which histories there are; the split tile's address along one.
pub fn who_is_accepted()
    ensures { Along }
{}
