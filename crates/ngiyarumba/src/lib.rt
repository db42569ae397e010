// The boundary: the library's calls, with numbers, slices and plain structs. Thin: each call hands on what `answers` makes of its answer. `ngiyarumba_c` has
// them under C names.

#![tactic(auto)]

pub mod draws;
pub mod flip;
pub mod numbered;
pub mod pin;
pub mod read;
pub mod run;
pub mod walk;
