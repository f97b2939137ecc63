//! A value that several owners hold until one writes.

ghost use Rattle.std.specs.Prelude.{◌≡◌, IfOk, OnOk, OnErr};
ghost use Rattle.std.specs.Borrow.{sem};

use crate::Exact;
use std::alloc::{AllocError, Global};
use std::marker::Model;
use std::rc::Rc;

/// A value that is copied when it is first written, if it has other owners.
///
/// Before its first write it takes no memory, and each owner has the start by itself: the start should be
/// cheap to clone, as an empty container is.
#[derive(Drop)]
pub struct Shared<T> {
    start: T,
    written: Option<Rc<T>>,
    alloc: Global,
}

impl<T> Model for Shared<T> {
    ghost use Rattle.containers.specs.HeldValue.{held_value};

    ghost Value = { T };

    ghost coded = { T.code };

    ghost view = { λ s. held_value s.written s.start };
}

impl<T> Shared<T> {
    /// A value before its first write. It takes no memory.
    pub fn new(alloc: Global, start: T) -> Shared<T>
        ensures { result ≡ start }
    {
        Shared {
            start,
            written: None,
            alloc,
        }
    }

    /// The value.
    pub fn get(&self) -> &T
        ensures { result.now ≡ self.now }
    {
        match &self.written {
            None => &self.start,
            Some(written) => &**written,
        }
    }
}

impl<T: Exact> Shared<T> {
    /// One more owner of the value. What was written isn't copied.
    pub fn share(&self) -> Result<Shared<T>, AllocError>
        ensures { IfOk result (λ shared. shared ≡ self.now) }
    {
        let start = self.start.clone()?;
        let written = match &self.written {
            None => None,
            Some(written) => Some(written.clone()?),
        };
        Ok(Shared {
            start,
            written,
            alloc: self.alloc,
        })
    }
}

impl<T: Exact> Shared<T> {
    ghost use Rattle.containers.specs.LentValue.{LendsValue};

    /// The value, to write to. It is copied first if it has other owners, which keep theirs.
    pub fn write(&mut self) -> Result<&mut T, AllocError>
        ensures* writes_back { sem 𝓛 (LendsValue T.row self.entry result) }
        ensures value { IfOk result (λ lent. lent.now ≡ self.old) }
    {
        self.begin()?;
        match &mut self.written {
            None => Err(AllocError),
            Some(written) => Rc::make_mut(written),
        }
    }

    /// Moves a clone of the start to where owners can share it, before the first write.
    fn begin(&mut self) -> Result<(), AllocError>
        ensures ok { OnOk result (self.new ≡ self.old) }
        ensures err { OnErr result (self.new ≡ self.old) }
    {
        if self.written.is_none() {
            let first = self.start.clone()?;
            self.written = Some(Rc::new(self.alloc, first)?);
        }
        Ok(())
    }
}

impl<T: Exact> Clone for Shared<T> {
    ghost use Rattle.std.specs.Prelude.{◌≡◌};

    ghost is_clone = { λ x y. y ≡ x };

    fn clone(&self) -> Result<Shared<T>, AllocError> {
        self.share()
    }
}

impl<T: Exact> Exact for Shared<T> {
    ghost exact = { λ x y e. e };
}
