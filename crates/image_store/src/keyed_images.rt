//! The images of one pipeline.

ghost use Rattle.std.specs.Prelude.{◌≡◌, ◌+◌, ◌≤◌, ◌^◌, ◌<◌, [], Some, None, true, false, IfOk, OnOk, OnErr, length};
ghost use Rattle.std.specs.Option.{option_copied};
ghost use Rattle.std.specs.FinMap as map;
ghost use Rattle.image_store.specs.Models.{ImageModel, IsImage, image_area};
ghost use Rattle.image_store.specs.StoreModel.{sum_of};
ghost use Rattle.image_store.specs.Keyed.{without_keys, counted_at};

use crate::Image;
use containers::{Exact, NumberMap, Shared};
use std::alloc::{AllocError, Global};
use std::marker::Model;

/// The images of one pipeline by key, which several stores may share.
///
/// A removal takes no memory: where the shared map can't be copied, the key is kept in `gone`, which always has
/// room for the keys of all images.
#[derive(Drop)]
pub(crate) struct KeyedImages {
    images: Shared<NumberMap<Image>>,
    gone: Vec<u32>,
    count: usize,
    area: u64,
    alloc: Global,
}

impl Model for KeyedImages {
    ghost use Rattle.std.specs.Coded.{coded_ℕ};
    ghost use Rattle.std.specs.FinMap as map;
    ghost use Rattle.image_store.specs.StoreModel.{Images};
    ghost use Rattle.image_store.specs.Keyed.{without_keys, AreKeyed};
    ghost use Rattle.image_store.specs.contracts.image.Image as an_image;

    ghost Value = { Images };

    ghost coded = { map.code coded_ℕ an_image.the_row.coded };

    ghost view = { λ s. without_keys s.images s.gone.items };

    ghost invariant = { λ s. AreKeyed s.images s.gone.items s.gone.cap s.count s.area };
}

impl KeyedImages {
    /// Without an image. It takes no memory.
    pub(crate) fn new(alloc: Global) -> KeyedImages
        ensures { result ≡ map.empty }
    {
        KeyedImages {
            images: Shared::new(alloc, NumberMap::new(alloc)),
            gone: Vec::new(alloc),
            count: 0,
            area: 0,
            alloc,
        }
    }

    /// The image of a key.
    pub(crate) fn get(&self, key: u32) -> Option<&Image>
        ensures { option_copied result ≡ map.get self.now key }
    {
        if self.gone.contains(&key) {
            return None;
        }
        self.images.get().get(key)
    }

    /// The number of images.
    pub(crate) fn len(&self) -> usize
        ensures { result ≡ map.len self.now }
    {
        self.count
    }

    /// The pixels of all images.
    pub(crate) fn area(&self) -> u64
        ensures { result ≡ sum_of image_area self.now }
    {
        self.area
    }

    /// Puts an image at a key, in the place of what stood there. The map is copied first if it has other owners.
    pub(crate) fn insert(&mut self, key: u32, image: Image) -> Result<(), AllocError>
        ensures ok { OnOk result (self.new ≡ map.insert self.old key image) }
        ensures err { OnErr result (self.new ≡ self.old) }
        ensures image { OnOk result (IsImage image) }
    {
        let (count, area) = self.counts_with(key, &image)?;
        self.gone.reserve(count)?;
        settle(&mut self.images, &mut self.gone)?;
        put(&mut self.images, key, image)?;
        self.count = count;
        self.area = area;
        Ok(())
    }

    /// Removes the image of a key. It takes no memory.
    pub(crate) fn remove(&mut self, key: u32)
        ensures { self.new ≡ map.remove self.old key }
    {
        if self.get(key).is_none() {
            return;
        }
        let (count, area) = self.counts_without(key);
        remove_key(&mut self.images, &mut self.gone, key);
        self.count = count;
        self.area = area;
    }

    /// The number of images and their pixels, with one at a key.
    fn counts_with(&self, key: u32, image: &Image) -> Result<(usize, u64), AllocError>
        ensures count { IfOk result (λ counts. counts.0 ≡ map.len (map.insert self.now key image.now)) }
        ensures area { IfOk result (λ counts. counts.1 ≡ sum_of image_area (map.insert self.now key image.now)) }
        ensures image { IfOk result (λ counts. IsImage image.now) }
    {
        let (others, area) = self.counts_without(key);
        let Some(count) = others.checked_add(1) else {
            return Err(AllocError);
        };
        match area.checked_add(area_of(image)) {
            Some(area) => Ok((count, area)),
            None => Err(AllocError),
        }
    }

    /// The number of images and their pixels, without the one at a key.
    fn counts_without(&self, key: u32) -> (usize, u64)
        ensures count { result.0 ≡ map.len (map.remove self.now key) }
        ensures area { result.1 ≡ sum_of image_area (map.remove self.now key) }
    {
        match self.get(key) {
            Some(image) => (self.count - 1, self.area - area_of(image)),
            None => (self.count, self.area),
        }
    }
}

impl Clone for KeyedImages {
    ghost use Rattle.std.specs.Prelude.{◌≡◌};

    ghost is_clone = { λ x y. y ≡ x };

    fn clone(&self) -> Result<KeyedImages, AllocError> {
        let images = self.images.share()?;
        let mut gone = Vec::with_capacity(self.alloc, self.gone.capacity())?;
        gone.extend_from_slice(&self.gone)?;
        Ok(KeyedImages {
            images,
            gone,
            count: self.count,
            area: self.area,
            alloc: self.alloc,
        })
    }
}

impl Exact for KeyedImages {
    ghost exact = { λ x y e. e };
}

/// The pixels of an image.
fn area_of(image: &Image) -> u64
    ensures area { result ≡ image_area image.now }
    ensures image { IsImage image.now }
{
    u64::from(image.w()) * u64::from(image.h())
}

/// Takes the keys that are gone out of the map, which is copied first if it has other owners.
fn settle(images: &mut Shared<NumberMap<Image>>, gone: &mut Vec<u32>) -> Result<(), AllocError>
    ensures ok { OnOk result (images.new ≡ without_keys images.old gone.old.items) }
    ensures none { OnOk result (gone.new.items ≡ []) }
    ensures room { gone.new.cap ≡ gone.old.cap }
    ensures err { OnErr result (images.new ≡ images.old) }
    ensures kept { OnErr result (gone.new.items ≡ gone.old.items) }
{
    if gone.is_empty() {
        return Ok(());
    }
    let map = images.write()?;
    remove_all(map, gone);
    gone.clear();
    Ok(())
}

/// Removes the images of some keys.
fn remove_all(images: &mut NumberMap<Image>, keys: &[u32])
    ensures { images.new ≡ without_keys images.old keys.now }
{
    for key in keys {
        images.remove(*key);
    }
}

/// Puts an image into the map, which is copied first if it has other owners.
fn put(images: &mut Shared<NumberMap<Image>>, key: u32, image: Image) -> Result<(), AllocError>
    ensures ok { OnOk result (images.new ≡ map.insert images.old key image) }
    ensures err { OnErr result (images.new ≡ images.old) }
{
    images.write()?.insert(key, image)?;
    Ok(())
}

/// Removes an image from the map, or keeps its key among those that are gone.
fn remove_key(images: &mut Shared<NumberMap<Image>>, gone: &mut Vec<u32>, key: u32)
    requires { length gone.old.items < gone.old.cap }
    ensures value { without_keys images.new gone.new.items ≡ map.remove (without_keys images.old gone.old.items) key }
    ensures length { length gone.new.items ≤ length gone.old.items + 1 }
    ensures room { gone.new.cap ≡ gone.old.cap }
{
    if !take_out(images, key) {
        gone.push_reserved(key);
    }
}

/// Takes an image out of the map, unless this takes memory that isn't there.
fn take_out(images: &mut Shared<NumberMap<Image>>, key: u32) -> bool
    ensures taken { result ≡ true → images.new ≡ map.remove images.old key }
    ensures kept { result ≡ false → images.new ≡ images.old }
{
    match images.write() {
        Ok(map) => {
            map.remove(key);
            true
        }
        Err(_) => false,
    }
}
