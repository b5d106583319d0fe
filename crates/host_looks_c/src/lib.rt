// The looks, for C: what libmmc5.a has of crate `host_looks`. Each function is the library's of the same name, with the same clauses; it asks nothing of its
// caller. C's declarations are in host/mmc5.h.
#![tactic(auto)]

ghost use Rattle.host_looks_c.specs.Exports.{ExportsAreTheLibrarys};

pub mod exports;

// No code: its contract holds that each export's contract is that of the library's function.
pub fn exports_are_the_librarys()
    ensures { ExportsAreTheLibrarys }
{}
