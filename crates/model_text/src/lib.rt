//! Models in evidence text: read from bytes and written back.
#![tactic(auto)]

mod entry;
mod finish;
mod laws;
mod place;
mod read;
mod step;
mod value;
mod write;

pub use laws::{
    each_text_is_read, first_fault_is_unique, models_are_read_back, models_are_unique,
    models_have_no_fault,
};
pub use read::read_models;
pub use write::{put_model, write_model};
