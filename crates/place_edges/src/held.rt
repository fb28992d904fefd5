// Files held in memory, and the one that is being read.

ghost use Rattle.std.specs.Prelude.{◌≡◌, ◌<◌, ◌∷◌, [], min, length, take, Some, None, OnOk, OnErr, MatchOption, slice_get, unwrap_or, is_some};
ghost use Rattle.std.specs.String.{string_bytes};
ghost use Rattle.place_edges.specs.Shelf.{TakesCount, byte_count};
ghost use Rattle.place_edges.specs.HeldFiles.{files_of, left_at, bytes_of, place_behind_one_more};

use std::alloc::{AllocError, Global};
use std::marker::Model;

// A name with the bytes held under it.
#[derive(Drop)]
pub(crate) struct Entry {
    name: String,
    bytes: Vec<u8>,
}

impl Model for Entry {
    ghost use Rattle.std.specs.Prelude.{ℕ, List};
    ghost use Rattle.std.specs.String.{string_bytes};

    ghost Value = { List ℕ × List ℕ };

    ghost view = { λ e. (string_bytes e.name, e.bytes.items) };
}

// Where the reading stands: in no file, at a place that is not told, or in this entry behind so
// many bytes.
#[derive(Clone, Copy, Drop)]
pub(crate) enum Place {
    Closed,
    Unknown,
    Inside(usize, usize),
}

// Files under their names, the newest entry in front. An older entry of the same name stays, since
// it may be the one that is being read.
#[derive(Drop)]
pub(crate) struct HeldFiles {
    entries: Vec<Entry>,
    place: Place,
}

impl Model for HeldFiles {
    ghost use Rattle.place_edges.specs.HeldFiles.{Held, left_at};

    ghost Value = { Held };

    ghost view = { λ h. record {
      entries = h.entries.items;
      rest = left_at h.entries.items h.place;
    } };
}

impl HeldFiles {
    pub(crate) fn new(alloc: Global) -> HeldFiles
        ensures { result ≡ record { entries = []; rest = Some [] } }
    {
        HeldFiles {
            entries: Vec::new(alloc),
            place: Place::Closed,
        }
    }

    // Holds the bytes under the name, in place of older ones. The file that is being read stays as
    // it is.
    pub(crate) fn add(&mut self, name: String, bytes: Vec<u8>) -> Result<(), AllocError>
        ensures held { OnOk result (self.new ≡ record self.old {
          entries = (string_bytes name, bytes.items) ∷ self.old.entries;
        }) }
        ensures same { OnErr result (self.new ≡ self.old) }
    {
        self.entries.insert(0, Entry { name, bytes })?;
        self.place = behind_one_more(self.place);
        Ok(())
    }

    // Makes the named file current from its start, and says whether it is held. Else nothing is
    // left to be read.
    pub(crate) fn open(&mut self, name: &str) -> bool
        ensures entries { self.new.entries ≡ self.old.entries }
        ensures rest { self.new.rest ≡ Some (unwrap_or (files_of self.old.entries name.now) []) }
        ensures found { result ≡ is_some (files_of self.old.entries name.now) }
    {
        match find_entry(&self.entries, name) {
            Some(file) => {
                self.place = Place::Inside(file, 0);
                true
            }
            None => {
                self.place = Place::Closed;
                false
            }
        }
    }

    // Leaves nothing to be read.
    pub(crate) fn close(&mut self)
        ensures { self.new ≡ record self.old { rest = Some [] } }
    {
        self.place = Place::Closed;
    }

    // Tells no more what is left.
    pub(crate) fn lose_place(&mut self)
        ensures { self.new ≡ record self.old { rest = None } }
    {
        self.place = Place::Unknown;
    }

    // Puts as many of the next bytes as fit at the front of `into`, and says how many they are.
    pub(crate) fn take(&mut self, into: &mut [u8]) -> usize
        ensures entries { self.new.entries ≡ self.old.entries }
        ensures count { result ≡ min (byte_count self.old.rest) (length into.new) }
        ensures bytes { TakesCount self.old.rest self.new.rest result into.new }
    {
        take_at(&self.entries, &mut self.place, into)
    }
}

// The same place after an entry was put in front.
fn behind_one_more(place: Place) -> Place
    ensures { result ≡ place_behind_one_more place }
{
    match place {
        Place::Inside(file, at) => Place::Inside(file.saturating_add(1), at),
        Place::Closed => Place::Closed,
        Place::Unknown => Place::Unknown,
    }
}

// Where the newest entry with this name stands.
fn find_entry(entries: &[Entry], name: &str) -> Option<usize>
    ensures { MatchOption result (files_of entries.now name.now ≡ None)
        (λ i. (files_of entries.now name.now ≡ Some (bytes_of (slice_get entries.now i)))
        × (i < length entries.now)) }
{
    for (index, entry) in entries.iter().enumerate() {
        if entry.name.as_str() == name {
            return Some(index);
        }
    }
    None
}

// Gives the next bytes at a place, and moves it behind them.
fn take_at(entries: &[Entry], place: &mut Place, into: &mut [u8]) -> usize
    ensures count { result ≡ min (byte_count (left_at entries.now place.old)) (length into.new) }
    ensures bytes { TakesCount (left_at entries.now place.old) (left_at entries.now place.new)
        result into.new }
{
    let Place::Inside(file, at) = *place else {
        return 0;
    };
    let Some(entry) = entries.get(file) else {
        return 0;
    };
    let from = at.min(entry.bytes.len());
    let count = copy_front(&entry.bytes[from..], into);
    *place = Place::Inside(file, from + count);
    count
}

// Copies as much of the front as there is room for.
fn copy_front(from: &[u8], into: &mut [u8]) -> usize
    ensures count { result ≡ min (length from.now) (length into.old) }
    ensures bytes { take result into.new ≡ take result from.now }
{
    let count = from.len().min(into.len());
    into[..count].copy_from_slice(&from[..count]);
    count
}
