//! The byte with which each operation begins.

pub(crate) const SET_LIST: u8 = 1;

pub(crate) const REMOVE_PIPELINE: u8 = 2;

pub(crate) const SCROLL: u8 = 3;

pub(crate) const SET_PROPERTY: u8 = 4;

pub(crate) const ADD_IMAGE: u8 = 5;

pub(crate) const UPDATE_IMAGE: u8 = 6;

pub(crate) const DELETE_IMAGE: u8 = 7;

pub(crate) const ADD_GLYPH: u8 = 8;

pub(crate) const DELETE_FONT: u8 = 9;

pub(crate) const SET_VIEW: u8 = 10;

pub(crate) const TILE_POLICY: u8 = 11;

pub(crate) const DROP_TILES: u8 = 12;
