//! A list with its epoch.

ghost use Rattle.std.specs.Prelude.{◌≡◌, IfOk};
ghost use Rattle.list_summary.specs.Iframes.{summary_of};

use display_list::List;
use list_summary::{Summary, summarise};
use std::alloc::Global;
use std::marker::Model;
use std::rc::Rc;
use wr_geom::NoMemory;

/// A list, counted once.
#[derive(Drop)]
struct CountedList {
    list: List,
    summary: Summary,
}

impl Model for CountedList {
    ghost use Rattle.std.specs.Prelude.{◌≡◌};
    ghost use Rattle.display_list.specs.ListModel.{ListModel};
    ghost use Rattle.list_summary.specs.Iframes.{summary_of};

    ghost Value = { ListModel };

    ghost view = { λ c. c.list };

    ghost invariant = { λ c. c.summary ≡ summary_of c.list };
}

impl CountedList {
    fn new(alloc: Global, list: List) -> Result<CountedList, NoMemory>
        ensures { IfOk result (λ counted. counted ≡ list) }
    {
        let summary = summarise(alloc, &list)?;
        Ok(CountedList { list, summary })
    }

    fn list(&self) -> &List
        ensures { result.now ≡ self.now }
    {
        &self.list
    }

    fn summary(&self) -> &Summary
        ensures { result.now ≡ summary_of self.now }
    {
        &self.summary
    }
}

/// A list with its epoch, and what it adds to a scene. Its owners share the list.
#[derive(Drop)]
pub struct Listed {
    counted: Rc<CountedList>,
    epoch: u32,
}

impl Model for Listed {
    ghost use Rattle.pipelines.specs.Listed.{ListedModel};

    ghost Value = { ListedModel };

    ghost view = { λ l. record { list = l.counted.value; epoch = l.epoch } };
}

impl Listed {
    /// A list with its epoch. The list is counted.
    pub fn new(alloc: Global, list: List, epoch: u32) -> Result<Listed, NoMemory>
        ensures { IfOk result (λ listed. listed ≡ record { list = list; epoch = epoch }) }
    {
        let counted = CountedList::new(alloc, list)?;
        let counted = Rc::new(alloc, counted)?;
        Ok(Listed { counted, epoch })
    }

    /// The list.
    pub fn list(&self) -> &List
        ensures { result.now ≡ self.now.list }
    {
        self.counted.list()
    }

    /// Its own items together, and its Iframes.
    pub fn summary(&self) -> &Summary
        ensures { result.now ≡ summary_of self.now.list }
    {
        self.counted.summary()
    }

    /// Its epoch, as its transaction gave it.
    pub fn epoch(&self) -> u32
        ensures { result ≡ self.now.epoch }
    {
        self.epoch
    }

    /// One more owner of the list.
    pub fn share(&self) -> Result<Listed, NoMemory>
        ensures { IfOk result (λ listed. listed ≡ self.now) }
    {
        let counted = self.counted.clone()?;
        Ok(Listed {
            counted,
            epoch: self.epoch,
        })
    }
}
