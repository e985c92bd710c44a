//! The wire of Protocol Buffers that CIFF needs: varints, and the fields of a message.
#![tactic(auto)]

mod field;
#[cfg(test)]
mod field_tests;
pub mod laws;
mod put;
mod varint;
#[cfg(test)]
mod varint_tests;

pub use field::{Content, Field, FieldFault, next_field};
pub use laws::{
    canonical_is_message, field_is_taken_again, message_is_one, spelling_is_read_again,
    varint_is_shortest,
};
pub use put::{put_head, put_number, put_tag, put_varint, varint_len};
pub use varint::{Varint, as_i32, as_i64, read_varint};
