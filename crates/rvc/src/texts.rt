// RULES 11.17: words, numbers and bytes put as text into lent bytes, each piece behind the one before.
pub use text::{decimal_width, put, put_bytes, put_decimal, put_hex};
