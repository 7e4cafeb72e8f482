//! Values of structures at any bit position of a byte slice.
#![tactic(auto)]

mod draft_fields;
mod draft_numbers;
mod draft_padding;
mod draft_strings;
mod draft_structs;
mod read_fault;
mod read_field;
mod read_number;
mod read_start;
mod read_structure;
mod read_text;
mod write_fields;
mod write_numbers;
mod write_padding;
mod write_strings;
mod write_structs;
mod write_values;

pub use draft_structs::draft_struct;
pub use read_fault::ReadFault;
pub use read_start::members_start;
pub use read_structure::{read_member, read_struct, read_struct_into};
pub use write_numbers::write_number;
pub use write_structs::{write_members, write_struct};
