// No code that runs: its contract holds that every public function's contract settles its result and the lent bytes.
#![tactic(auto)]

ghost use Rattle.theorems_settles.specs.Every.{EveryContract};

pub fn every_contract()
    ensures { EveryContract }
{}
