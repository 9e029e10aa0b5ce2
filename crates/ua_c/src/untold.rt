//! What the Write of a step stored, as far as it was not told yet.

ghost use Rattle.std.specs.Prelude.{◌≡◌, [], None, OnOk};
ghost use Rattle.ua_c.specs.Telling.{no_item, untold_in};

use crate::readings::UaReading;
use std::alloc::{AllocError, Global};
use ua_server::{Connection, Written};
use ua_services::WriteValue;

/// The items that a Write stored, of which some were told. They are read when the first is asked
/// for.
#[derive(Debug, Drop)]
pub struct Untold {
    /// What was stored, while none of it was asked for.
    pub written: Option<Written>,
    /// Else the items; those before `told` were told.
    pub items: Vec<WriteValue>,
    pub told: usize,
}

/// A connection, and what the Write that its last step answered stored, as far as it was not told
/// yet.
#[derive(Debug, Drop)]
pub struct ServedConnection {
    pub connection: Connection,
    pub written: Untold,
}

impl Untold {
    /// Nothing is to be told.
    pub(crate) fn nothing(alloc: Global) -> Untold
        ensures { untold_in result ≡ [] }
    {
        Untold {
            written: None,
            items: Vec::new(alloc),
            told: 0,
        }
    }

    /// All that a step stored is to be told.
    pub(crate) fn of(alloc: Global, written: Written) -> Untold
        ensures { untold_in result ≡ written }
    {
        Untold {
            written: Some(written),
            items: Vec::new(alloc),
            told: 0,
        }
    }

    /// Reads the items, where that was not done.
    pub(crate) fn read(&mut self, alloc: Global) -> Result<(), AllocError>
        ensures same { untold_in self.new ≡ untold_in self.old }
        ensures read { OnOk result (self.new.written ≡ None) }
    {
        let Some(written) = &self.written else {
            return Ok(());
        };
        let items = written.values(alloc)?;
        *self = Untold {
            written: None,
            items,
            told: 0,
        };
        Ok(())
    }
}

/// A status, and an item: the place of its node, the length of its value's encoding, and what the
/// client wrote beside it.
#[derive(Clone, Copy, Debug)]
pub struct ToldItem {
    pub status: u32,
    pub index: usize,
    pub needed: usize,
    pub reading: UaReading,
}

impl ToldItem {
    /// Only a status.
    pub(crate) fn only(status: u32) -> ToldItem
        ensures { result ≡ no_item status }
    {
        ToldItem {
            status,
            index: 0,
            needed: 0,
            reading: UaReading::nothing(),
        }
    }
}
