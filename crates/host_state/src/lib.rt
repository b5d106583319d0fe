// The state in plain words: what a host lends and keeps, one array of 144 words of 16 bits, read as a state, and a state put back. Every word has one
// meaning and one limit (specs/Words.antt). It stays a plain array, and no struct with methods: so C lends it, and so every public clause speaks of it.
#![tactic(auto)]

ghost use Rattle.host_state.specs.Promise.{WordsAndStates};

pub mod gate;
pub mod groups;
pub mod limits;
pub mod read;
pub mod tables;
pub mod whole_state;

// No code: its contract holds that words and states stand for each other.
pub fn promises()
    ensures { WordsAndStates }
{}
