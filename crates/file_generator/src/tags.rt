//! The bytes with which operations and the parts of a list begin.

pub(crate) const SET_LIST: u8 = 1;

pub(crate) const SCROLL: u8 = 3;

pub(crate) const SET_PROPERTY: u8 = 4;

pub(crate) const ADD_IMAGE: u8 = 5;

pub(crate) const UPDATE_IMAGE: u8 = 6;

pub(crate) const SET_VIEW: u8 = 10;

pub(crate) const TILE_POLICY: u8 = 11;

pub(crate) const END: u8 = 0;

pub(crate) const SCROLL_FRAME: u8 = 2;

pub(crate) const ROUND_CLIP: u8 = 4;

pub(crate) const CHAIN: u8 = 5;

pub(crate) const SOLID: u8 = 6;

pub(crate) const IMAGE: u8 = 7;

pub(crate) const BORDER: u8 = 8;

pub(crate) const PUSH_CONTEXT: u8 = 10;

pub(crate) const POP_CONTEXT: u8 = 11;

/// The property of an opacity, as SET_PROPERTY names its kind.
pub(crate) const OPACITY: u8 = 1;
