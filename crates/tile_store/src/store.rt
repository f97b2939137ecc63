ghost use Rattle.std.specs.Prelude.{◌≡◌, ◌<◌, ◌≤◌, ◌∷◌, ◌^◌, [], false, Some, None, is_some, length, IfOk, OnOk, OnErr, IfErr, IfSome, IsSome, option_copied, option_map, ◌↔◌};
ghost use Rattle.std.specs.Borrow.{sem};
ghost use Rattle.std.specs.Option.{option_map_or};
ghost use Rattle.wr_geom.specs.Bounds.{area_of};
ghost use Rattle.tile_store.specs.Keys.{same_key};
ghost use Rattle.tile_store.specs.Tiles.{HasTileSides, HasRow, HasRowWhereKept, IsTile, blank_tile, tile_row, tile_at, without, touched, changed_at, popped_over, least_recent_over};
ghost use Rattle.tile_store.specs.StoreModel.{IsStore, LiesInTile, opened_after};
ghost use Rattle.tile_store.specs.Windows.{HasWindowRow, window_width, window_row};
ghost use Rattle.tile_store.specs.Laws.{HaveOwnKeys};
ghost use Rattle.wr_geom.specs.declared.keys.TileKey.{TileKey};

use crate::limits::MAX_TILES;
use crate::spares::Spares;
use crate::tile::{Tile, TileView, columns_in, row_in, sides_of};
use crate::window::{OpenWindow, Window};
use lru::LruCache;
use span_kernels::{Plane, Planes};
use std::alloc::Global;
use std::marker::Model;
use std::mem;
use wr_geom::{NoMemory, Rect, TileKey};

/// Out of memory. It hands the note back.
#[derive(Drop)]
pub struct Refused<R> {
    pub note: R,
}

/// Kept tiles, each under its key, in order of recency. At most one of them has a window open for writing.
///
/// A tile is its rectangle, four planes of bytes and a note. Its bytes change through its window alone.
#[derive(Drop)]
pub struct TileStore<R> {
    tiles: LruCache<TileKey, Tile<R>>,
    window: Option<OpenWindow>,
    /// The planes of the open tile while a window is open, so that a row costs no look-up.
    lent: Planes,
    opened: u64,
    spares: Spares,
}

impl<R> Model for TileStore<R> {
    ghost use Rattle.std.specs.Prelude.{◌≡◌, ◌^◌, ◌-◌};
    ghost use Rattle.tile_store.specs.StoreModel.{StoreModel, IsStore};
    ghost use Rattle.tile_store.specs.Within.{put_back, window_of, IsOpenIn};

    ghost Value = { StoreModel R };

    ghost view = { λ s. record {
      tiles = put_back s.tiles.entries s.window s.lent;
      window = window_of s.window;
      opened = s.opened;
    } };

    ghost invariant = { λ s. (s.tiles.cap ≡ 2 ^ 64 - 1) × IsOpenIn s.tiles.entries s.window
        × IsStore (record { tiles = put_back s.tiles.entries s.window s.lent; window = window_of s.window; opened = s.opened }) };
}

impl<R: Drop> TileStore<R> {
    ghost use Rattle.tile_store.specs.Lending.{LendsWindowRow};

    /// A store that keeps no tile. `NoMemory` where there is none for it.
    pub fn new(alloc: Global) -> Result<TileStore<R>, NoMemory>
        ensures { IfOk result (λ store. store ≡ record { tiles = []; window = None; opened = 0 }) }
    {
        Ok(TileStore {
            tiles: LruCache::unbounded(alloc)?,
            window: None,
            lent: Planes::empty(alloc),
            opened: 0,
            spares: Spares::new(alloc)?,
        })
    }

    /// Keeps a new tile of zeros as the most recent, with a rectangle of 1 to 1,024 pixels a side. The key must not be
    /// kept, nor `MAX_TILES` tiles. Out of memory it changes nothing and hands the note back.
    pub fn put(
        &mut self,
        alloc: Global,
        key: TileKey,
        rect: Rect,
        note: R,
    ) -> Result<(), Refused<R>>
        requires new { tile_at key self.old.tiles ≡ None }
        requires room { length self.old.tiles < MAX_TILES }
        requires sides { HasTileSides rect }
        ensures kept { OnOk result (self.new
            ≡ record self.old { tiles = (key, blank_tile rect note) ∷ self.old.tiles }) }
        ensures note { IfErr result (λ refused. refused.note ≡ note) }
        ensures err { OnErr result (self.new ≡ self.old) }
    {
        let (width, height) = sides_of(rect);
        let planes = match self.spares.blank(alloc, width, height) {
            Ok(planes) => planes,
            Err(_) => return Err(Refused { note }),
        };
        let tile = Tile { rect, planes, note };
        match self.tiles.put(key, tile) {
            Ok(None) => Ok(()),
            Ok(Some(_)) => unreachable!(),
            Err(failed) => {
                let (
                    _,
                    Tile {
                        note,
                        planes,
                        rect: _,
                    },
                ) = failed.value;
                self.spares.keep(planes);
                Err(Refused { note })
            }
        }
    }

    /// How many tiles are kept. It takes no memory.
    pub fn len(&self) -> u32
        ensures value { result ≡ length self.now.tiles }
        ensures most { result ≤ MAX_TILES }
    {
        self.tiles.len() as u32
    }

    /// How many pixels the windows had that were opened, or the last value of 64 bits where they had more. It takes no memory.
    pub fn opened(&self) -> u64
        ensures value { result ≡ self.now.opened }
        ensures fits { result < 2 ^ 64 }
    {
        self.opened
    }

    /// Makes a kept tile the most recent, and tells whether it is kept. It takes no memory.
    pub fn touch(&mut self, key: TileKey) -> bool
        ensures kept { result ≡ is_some (tile_at key self.old.tiles) }
        ensures store { self.new ≡ record self.old { tiles = touched key self.old.tiles } }
        ensures first { (tile : _) → tile_at key self.old.tiles ≡ Some tile
            → self.new.tiles ≡ (key, tile) ∷ without key self.old.tiles }
    {
        self.tiles.promote(&key)
    }

    /// A kept tile, for reading row by row with no further look-up; None where it isn't kept. It takes no memory.
    pub fn tile(&self, key: TileKey) -> Option<TileView<'_, R>>
        ensures { result ≡ tile_at key self.now.tiles }
    {
        let tile = self.tiles.peek(&key)?;
        let planes = if self.is_open(key) {
            &self.lent
        } else {
            &tile.planes
        };
        Some(TileView::new(tile.rect, planes, &tile.note))
    }

    /// Whether the window is open on this tile.
    fn is_open(&self, key: TileKey) -> bool
        ensures { result ≡ option_map_or (λ window. same_key window.key key) self.now.window false }
    {
        match self.window {
            Some(current) => current.window.key == key,
            None => false,
        }
    }

    /// The rectangle of a kept tile, in the coordinates of its slice; None where it isn't kept. It takes no memory.
    pub fn rect(&self, key: TileKey) -> Option<Rect>
        ensures { result ≡ option_map (λ tile. tile.rect) (tile_at key self.now.tiles) }
    {
        let tile = self.tile(key)?;
        Some(tile.rect())
    }

    /// The note of a kept tile; None where it isn't kept. It takes no memory.
    pub fn note(&self, key: TileKey) -> Option<&R>
        ensures { option_copied result ≡ option_map (λ tile. tile.note) (tile_at key self.now.tiles) }
    {
        let tile = self.tile(key)?;
        Some(tile.note())
    }

    /// Gives a kept tile another note and answers the old one. The order stays. It takes no memory.
    pub fn swap_note(&mut self, key: TileKey, note: R) -> R
        requires kept { IsSome (tile_at key self.old.tiles) }
        ensures old { Some result ≡ option_map (λ tile. tile.note) (tile_at key self.old.tiles) }
        ensures store { self.new ≡ record self.old {
          tiles = changed_at key (λ tile. record tile { note = note }) self.old.tiles;
        } }
    {
        let tile = self.tiles.peek_mut(&key).unwrap();
        mem::replace(&mut tile.note, note)
    }

    /// Gives a tile up and answers its note; None where it isn't kept. No window may be open. It takes no memory.
    pub fn remove(&mut self, key: TileKey) -> Option<R>
        requires closed { self.old.window ≡ None }
        ensures note { result ≡ option_map (λ tile. tile.note) (tile_at key self.old.tiles) }
        ensures store { self.new ≡ record self.old { tiles = without key self.old.tiles } }
    {
        let Tile {
            note,
            planes,
            rect: _,
        } = self.tiles.pop(&key)?;
        self.spares.keep(planes);
        Some(note)
    }

    /// Gives up the least recent tile and answers its key and note; None where at most `budget` tiles are kept. No window
    /// may be open. It takes no memory.
    pub fn pop_over(&mut self, budget: u32) -> Option<(TileKey, R)>
        requires closed { self.old.window ≡ None }
        ensures none { (result ≡ None) ↔ (length self.old.tiles ≤ budget) }
        ensures value { result ≡ least_recent_over budget self.old.tiles }
        ensures store { self.new ≡ record self.old { tiles = popped_over budget self.old.tiles } }
    {
        if self.tiles.len() <= budget as usize {
            return None;
        }
        let (
            key,
            Tile {
                note,
                planes,
                rect: _,
            },
        ) = self.tiles.pop_lru()?;
        self.spares.keep(planes);
        Some((key, note))
    }

    /// One plane's bytes in the row of a kept tile at the coordinate y; None where the tile isn't kept. Where it is, y must
    /// be one of its rows. It takes no memory.
    pub fn row(&self, key: TileKey, p: Plane, y: i32) -> Option<&[u8]>
        requires { HasRowWhereKept (tile_at key self.now.tiles) y }
        ensures { option_copied result ≡ option_map (tile_row p y) (tile_at key self.now.tiles) }
    {
        let tile = self.tile(key)?;
        Some(tile.row(p, y))
    }

    /// Opens a part of a kept tile for writing, and counts its pixels. No window may be open. An empty rectangle lies in
    /// every tile, and its window has no row. It takes no memory.
    pub fn open_window(&mut self, key: TileKey, rect: Rect)
        requires closed { self.old.window ≡ None }
        requires inside { LiesInTile rect (tile_at key self.old.tiles) }
        ensures { self.new ≡ record self.old {
          window = Some (record { key = key; rect = rect });
          opened = opened_after self.old.opened (area_of rect);
        } }
    {
        let kept = self.tiles.peek_mut(&key).unwrap();
        mem::swap(&mut kept.planes, &mut self.lent);
        self.window = Some(OpenWindow {
            window: Window { key, rect },
            tile: kept.rect,
        });
        self.opened = self.opened.saturating_add(rect.area());
    }

    /// Lends the open window's part of a row of one plane for writing. The coordinate y must be that of a row of the window.
    /// It takes no memory.
    pub fn row_mut(&mut self, p: Plane, y: i32) -> &mut [u8]
        requires { HasWindowRow self.old.window y }
        ensures* writes_back { sem 𝓛 (LendsWindowRow R.row self.entry p y result) }
        ensures value { result.now ≡ window_row self.old p y }
        ensures len { length result.now ≡ window_width self.old.window }
    {
        let OpenWindow { window, tile } = self.window.unwrap();
        let Window { key: _, rect } = window;
        let (from, to) = columns_in(tile, rect);
        self.lent.row_mut(p, row_in(tile, y), from, to)
    }

    /// Closes the window, which must be open. It takes no memory.
    pub fn close_window(&mut self)
        requires { IsSome self.old.window }
        ensures { self.new ≡ record self.old { window = None } }
    {
        let current = self.window.unwrap();
        let tile = self.tiles.peek_mut(&current.window.key).unwrap();
        mem::swap(&mut tile.planes, &mut self.lent);
        self.window = None;
    }
}

/// What the type of stores keeps, for whoever holds one. It does nothing.
pub fn know_store<R>(store: &TileStore<R>)
    ensures store { IsStore store.now }
    ensures keys { HaveOwnKeys store.now.tiles }
    ensures tiles { (key : TileKey) → IfSome (tile_at key store.now.tiles) (λ tile. IsTile tile) }
{
    let _count = store.tiles.len();
}
