//! The lists of the slots' values.
ghost use Rattle.std.specs.Prelude.{◌≡◌, ◌≤◌, ◌<◌, ◌==◌, [], length, position, IfOk, OnOk, IfSome};
ghost use Rattle.sk_base.specs.Documents.{AreValues};
ghost use Rattle.sk_sorted.specs.Runs.{flat};
ghost use Rattle.sk_slots.specs.Slotted.{slot_pieces, slot_list, Sets, SetsAll, ClearsAll, RiseFrom, IsNowhere, KeepsOthers, values_at};

use sk_base::{Bytes, DocId, SlotValue};
use sk_values::{SlotList, Value};
use std::alloc::{AllocError, Global};
use std::marker::Model;

/// A slot, and who has a value in it.
#[derive(Drop)]
pub(crate) struct SlotEntry {
    pub slot: u32,
    pub list: SlotList,
}

/// A list for each slot in which a document has a value, or had one, by rising slot.
#[derive(Drop)]
pub struct SlotLists {
    alloc: Global,
    slots: Vec<SlotEntry>,
    /// The list of all other slots, without an entry.
    none: SlotList,
}

impl Model for SlotLists {
    ghost use Rattle.std.specs.Prelude.{◌≡◌, List, []};
    ghost use Rattle.sk_slots.specs.declared.slot_lists.SlotEntry.{SlotEntry};
    ghost use Rattle.sk_slots.specs.Slotted.{RiseFrom};

    ghost Value = { List SlotEntry };

    ghost view = { λ l. l.slots.items };

    ghost invariant = { λ l. (l.none ≡ []) × RiseFrom 0 l.slots.items };
}

impl SlotLists {
    /// No value, and room for the lists of so many slots.
    pub fn new(alloc: Global, room: usize) -> Result<SlotLists, AllocError>
        ensures { IfOk result (λ lists. lists ≡ []) }
    {
        let slots = Vec::with_capacity(alloc, room)?;
        Ok(SlotLists {
            alloc,
            slots,
            none: SlotList::new(alloc),
        })
    }

    /// The same values, in memory of their own.
    pub fn copy(&self) -> Result<SlotLists, AllocError>
        ensures { IfOk result (λ copy. copy ≡ self.now) }
    {
        let slots = copies_of(self.alloc, self.slots.as_slice())?;
        Ok(SlotLists {
            alloc: self.alloc,
            slots,
            none: SlotList::new(self.alloc),
        })
    }

    /// The list of the slot.
    pub fn list(&self, slot: u32) -> &SlotList
        ensures pieces { result.now ≡ slot_pieces slot self.now }
        ensures entries { flat result.now ≡ slot_list slot self.now }
    {
        match self.place_of(slot) {
            Some(at) => &self.slots[at].list,
            None => &self.none,
        }
    }

    /// Gives the document these values, which move into the lists.
    pub fn set_all(&mut self, id: DocId, values: Vec<SlotValue>) -> Result<(), AllocError>
        requires id { 1 ≤ id }
        requires sound { AreValues values.items }
        ensures sets { OnOk result (SetsAll id values.items self.old self.new) }

        // It has these alone where it had none, and no other document has other ones.
        ensures values { OnOk result (IsNowhere id self.old → values_at id self.new ≡ values.items) }
        ensures others { OnOk result (KeepsOthers id self.old self.new) }
    {
        // The invariant, that the slots rise, is used by the proof of the loop.
        let _rising = &self.slots;
        'values: for one in values {
            self.set(id, one.slot, one.value)?;
        }
        Ok(())
    }

    /// Takes the document out of each list. Want of memory stops nothing.
    pub fn clear_all(&mut self, id: DocId)
        ensures clears { ClearsAll id self.old self.new }
        ensures others { KeepsOthers id self.old self.new }
    {
        'slots: for one in self.slots.iter_mut() {
            one.list.clear(id);
        }
    }

    fn place_of(&self, slot: u32) -> Option<usize>
        ensures value { result ≡ position (λ one. one.slot == slot) self.now }
        ensures there { IfSome result (λ at. at < length self.now) }
    {
        self.slots.iter().position(|one| one.slot == slot)
    }

    fn set(&mut self, id: DocId, slot: u32, value: Bytes) -> Result<(), AllocError>
        requires id { 1 ≤ id }
        requires some { 1 ≤ length value }
        ensures sets { OnOk result (Sets id slot value self.old self.new) }
        ensures rise { OnOk result (RiseFrom 0 self.new) }
    {
        let value = Value::new(self.alloc, value)?;
        match self.place_of(slot) {
            Some(at) => {
                self.slots[at].list.set(id, value)?;
                Ok(())
            }
            None => {
                let mut list = SlotList::new(self.alloc);
                list.set(id, value)?;
                let at = self.slots.partition_point(|one| one.slot < slot);
                self.slots.insert(at, SlotEntry { slot, list })?;
                Ok(())
            }
        }
    }
}

/// The same slots with the same values, in memory of their own.
fn copies_of(alloc: Global, slots: &[SlotEntry]) -> Result<Vec<SlotEntry>, AllocError>
    ensures { IfOk result (λ copies. copies.items ≡ slots.now) }
{
    let mut copies = Vec::with_capacity(alloc, slots.len())?;
    'copies: for one in slots {
        let list = one.list.copy(alloc)?;
        copies.push(SlotEntry {
            slot: one.slot,
            list,
        })?;
    }
    Ok(copies)
}
