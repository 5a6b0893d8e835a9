// Finite fields of bytes, and the Reed-Solomon code of 204 bytes over them.
#![tactic(auto)]

mod agree;
mod bytes;
mod code;
mod corrector;
mod encoder;
mod exponents;
mod field;
mod key_equation;
mod polynomial;
mod powers;
mod refusal;
mod repair;
mod shift;
mod table;

pub use agree::byte_fields_agree;
pub use bytes::{answers_are_unique, correct_bytes, encode_bytes};
pub use code::{BYTE_CODE, Code, is_code_word, syndromes};
pub use corrector::correct;
pub use encoder::encode;
pub use field::Field;
pub use refusal::{CodeFault, CodeRefusal};
pub use shift::Shift256;
pub use table::Table256;
