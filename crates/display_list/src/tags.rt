//! The byte with which each part of a list begins.

pub(crate) const END: u8 = 0;

pub(crate) const REFERENCE_FRAME: u8 = 1;

pub(crate) const SCROLL_FRAME: u8 = 2;

pub(crate) const RECT_CLIP: u8 = 3;

pub(crate) const ROUND_CLIP: u8 = 4;

pub(crate) const CHAIN: u8 = 5;

pub(crate) const SOLID: u8 = 6;

pub(crate) const IMAGE: u8 = 7;

pub(crate) const BORDER: u8 = 8;

pub(crate) const TEXT: u8 = 9;

pub(crate) const PUSH_CONTEXT: u8 = 10;

pub(crate) const POP_CONTEXT: u8 = 11;

pub(crate) const IFRAME: u8 = 12;

pub(crate) const HIT_AREA: u8 = 13;
