//! What readers see: the published list, with the prefix of the history that it is.
ghost use Rattle.std.specs.Prelude.{◌≡◌, []};
ghost use Rattle.live_log.specs.ListRule.{applied};

use crate::appended::{Appended, copy_of};
use crate::history::SeenPrefix;
use left_right::Absorb;
use std::alloc::{AllocError, Global};
use std::marker::Model;

/// A record, with the prefix of the history that ends with it.
#[derive(Drop)]
pub(crate) struct Step {
    pub item: Appended,
    pub prefix: SeenPrefix,
}

/// What contracts see of a published list. No value of it is made, and a clause reads an array as a list, of any length.
pub(crate) struct ListState {
    pub list: [Appended; 0],
    pub prefix: SeenPrefix,
}

/// The published list. That it is the prefix of the history beside it is the rule's.
#[derive(Drop)]
pub(crate) struct PublishedList {
    alloc: Global,
    list: Vec<Appended>,
    prefix: SeenPrefix,
}

impl Model for PublishedList {
    ghost use Rattle.live_log.specs.declared.published_list.ListState.{ListState};

    ghost Value = { ListState };

    ghost view = { λ s. record { list = s.list.items; prefix = s.prefix } };
}

impl PublishedList {
    pub(crate) fn new(alloc: Global, prefix: SeenPrefix) -> PublishedList
        ensures { (result.list ≡ []) × (result.prefix ≡ prefix) }
    {
        PublishedList {
            alloc,
            list: Vec::new(alloc),
            prefix,
        }
    }

    pub(crate) fn list(&self) -> &[Appended]
        ensures { result.now ≡ self.now.list }
    {
        self.list.as_slice()
    }

    pub(crate) fn prefix(&self) -> &SeenPrefix
        ensures { result.now ≡ self.now.prefix }
    {
        &self.prefix
    }

    pub(crate) fn into_list(self) -> Vec<Appended>
        ensures { result.items ≡ self.list }
    {
        let PublishedList {
            alloc: _,
            list,
            prefix: _front,
        } = self;
        list
    }
}

impl Absorb<Step> for PublishedList {
    type State = ListState;

    ghost state = { λ s. s };

    ghost applied = { applied };

    fn absorb_first(&mut self, operation: &Step, _other: &PublishedList) -> Result<(), AllocError> {
        let Ok(item) = copy_of(self.alloc, &operation.item) else {
            return Err(AllocError);
        };
        match self.list.push(item) {
            Ok(()) => {
                self.prefix = operation.prefix.copy();
                Ok(())
            }
            Err(_) => Err(AllocError),
        }
    }
}
