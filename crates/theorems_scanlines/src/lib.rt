// Demand 3: the history alone tells the scanline interrupt. No code runs from here; the one function holds the theorems to the crate.
// specs/Told.antt says what a history tells, specs/Machine.antt what the detector does, specs/Promise.antt what is promised.
#![tactic(auto)]

ghost use Rattle.theorems_scanlines.specs.Promise.{DetectorDemand3, StaysInRange};
ghost use Rattle.theorems_scanlines.specs.Told.{TestsAreSentences};
ghost use Rattle.theorems_scanlines.specs.Sentence.{LineIsTheSentence};
ghost use Rattle.theorems_scanlines.specs.Cases.{Cases, Worked};

pub fn promises()
    ensures { DetectorDemand3 × StaysInRange × LineIsTheSentence × TestsAreSentences × Worked × Cases }
{}
