// What the bank registers put into the page tables. 01, modules 4, 5 and 6; in the Rust, `update_prg_banks`, `update_chr_banks`,
// `update_nametables`, `update_ex_ram` and `required_chr_set`. Each function takes the numbers that it goes by and one table.
#![tactic(auto)]

pub mod chr;
pub mod names;
pub mod prg;
