//! Objects: code as bytes. An object is a header and eight bytes for each instruction; in version 2 also the names of the
//! exceptions and the starts of the labels. Each object has one spelling. It decodes whether its code is lawful or not.
#![tactic(auto)]

mod byte_set;
mod bytes;
mod column;
mod decoder;
mod encoder;
mod error;
mod field;
pub mod laws;
mod number;
mod object;
mod parts;

pub use byte_set::{Column, exception_columns, header_columns, row_columns};
pub use bytes::{halt_row, target_byte};
pub use decoder::decode;
pub use encoder::{encode, encode_code};
pub use error::ObjectError;
pub use object::{Object, Tag, Tagged};
