//! Derives tables for debuggers and unwinders from relocatable objects: the index of their compilation units (CUs) and
//! names, and the SFrame section in the order of addresses. `specs/` defines which input has tables, and the cause of
//! each error; `gdb_tables` and `sframe_format` define the tables.
#![tactic(auto)]

mod derive;
mod error;
mod input;
mod laws;
mod object;
mod order;

pub use derive::{Derived, derive_tables};
pub use error::DeriveError;
pub use gdb_tables::{built_indexes_are_one, index_has_few_steps};
pub use laws::{
    indexes_are_checked, inside_is_no_bad_span, refused_for_one_cause, valid_has_no_cause,
};
