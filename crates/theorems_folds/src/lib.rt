// CR 7, the tile count turns over: the board that keeps the fold of its tile count is the board that counts on without an end. No code runs from
// here; the one function holds the theorems to the crate. The fold itself stands in crate `scanline`, specs/Tiles.antt and specs/Turns.antt.
#![tactic(auto)]

ghost use Rattle.theorems_folds.specs.Same.{SameBoard};
ghost use Rattle.theorems_folds.specs.Along.{AlongFull, RustReaches};
ghost use Rattle.theorems_folds.specs.Worked.{Worked};

pub fn promises()
    ensures { SameBoard × AlongFull × RustReaches × Worked }
{}
