//! The byte that says the kind of a header's value.

pub(crate) const TRUE: u8 = 0;

pub(crate) const FALSE: u8 = 1;

pub(crate) const BYTE: u8 = 2;

pub(crate) const INT16: u8 = 3;

pub(crate) const INT32: u8 = 4;

pub(crate) const INT64: u8 = 5;

pub(crate) const BYTE_ARRAY: u8 = 6;

pub(crate) const STRING: u8 = 7;

pub(crate) const TIMESTAMP: u8 = 8;

pub(crate) const UUID: u8 = 9;
