//! What candidate pins heard, as it is handed out.
ghost use Rattle.std.specs.Prelude.{◌≡◌, ◌<◌, ◌++◌, [], length, map, get_or, IfOk, OnOk};
ghost use Rattle.std.specs.List.{flat_map};
ghost use Rattle.heard_lists.specs.Listings.{handed_out};
ghost use Rattle.heard_lists.specs.Stretches.{sound_bytes, stretches_of};
ghost use Rattle.heard_lists.specs.declared.pin_list.PinHeard.{PinHeard};

use crate::lists::HeardLists;
use crate::pin_list::PinHeard;
use crate::stretches::Stretch;
use hda_items::Items;
use heard_frames::Heard;
use std::alloc::{AllocError, Global};
use std::marker::Model;
use stream_format::Bits;

/// What the candidate pins of a machine heard, codec by codec and in order. The bytes of the blocks are kept once for
/// all pins. Contracts see a list for each pin. This project's own.
#[derive(Drop)]
pub struct HeardPins {
    lists: HeardLists,
}

impl Model for HeardPins {
    ghost use Rattle.std.specs.Prelude.{List, map};
    ghost use Rattle.heard_lists.specs.Listings.{handed_out};
    ghost use Rattle.heard_lists.specs.declared.pin_list.PinHeard.{PinHeard};

    ghost Value = { List PinHeard };

    ghost view = { λ h. map handed_out h.lists };
}

impl HeardPins {
    /// No pin at all.
    pub fn none(alloc: Global) -> HeardPins
        ensures { result ≡ [] }
    {
        HeardPins {
            lists: HeardLists::none(alloc),
        }
    }

    /// How many pins there are.
    pub fn len(&self) -> usize
        ensures { result ≡ length self.now }
    {
        self.lists.len()
    }

    /// The address of the codec of the pin at a place, counted from 0, and its node identifier.
    pub fn head(&self, place: usize) -> (u8, u8)
        requires { place < length self.now }
        ensures { (pin : PinHeard) → result ≡ ((get_or self.now place pin).codec, (get_or self.now place pin).pin) }
    {
        self.lists.head(place)
    }

    /// Puts what the pin at a place, counted from 0, heard behind the items, oldest first.
    ///
    /// # Errors
    /// Want of memory. Some of it may stand there then.
    pub fn push_list(&self, place: usize, items: &mut Vec<Heard>) -> Result<(), AllocError>
        requires { place < length self.now }
        ensures { (pin : PinHeard) → OnOk result
            (items.new.items ≡ items.old.items ++ (get_or self.now place pin).list) }
    {
        self.lists.push_list(place, items)
    }

    /// Puts what the pin at a place, counted from 0, heard in place of what stands there: its stretches, oldest first,
    /// and the bytes of its sound, each sample in the container of this size.
    ///
    /// # Errors
    /// Want of memory. Stretches and bytes are some then.
    pub fn put_stretches(
        &self,
        place: usize,
        bits: Bits,
        stretches: &mut Vec<Stretch>,
        sound: &mut Vec<u8>,
    ) -> Result<(), AllocError>
        requires { place < length self.now }
        ensures stretches { (pin : PinHeard) → OnOk result
            (stretches.new.items ≡ stretches_of (get_or self.now place pin).list) }
        ensures sound { (pin : PinHeard) → OnOk result
            (sound.new.items ≡ flat_map (sound_bytes bits) (get_or self.now place pin).list) }
    {
        self.lists.put_stretches(place, bits, stretches, sound)
    }

    /// The pin at a place, counted from 0, with what it heard as a list of its own.
    ///
    /// # Errors
    /// Want of memory.
    pub fn pin(&self, alloc: Global, place: usize) -> Result<PinHeard, AllocError>
        requires { place < length self.now }
        ensures { (pin : PinHeard) → IfOk result (λ heard. heard ≡ get_or self.now place pin) }
    {
        let (codec, pin) = self.head(place);
        let mut items = Vec::new(alloc);
        self.push_list(place, &mut items)?;
        Ok(PinHeard {
            codec,
            pin,
            list: Items::from_vec(items),
        })
    }
}

impl HeardLists {
    /// The lists, codecs ascending by address and each one's pins in their order.
    pub fn into_lists(self) -> HeardPins
        ensures { result ≡ map handed_out self }
    {
        HeardPins { lists: self }
    }
}
