//! The heard lists of a machine, with the marks of its pins.
ghost use Rattle.std.specs.Prelude.{◌≡◌, ◌≤◌, ◌+◌, ◌/◌, ◌++◌, ◌<◌, ℕ, List, All, Contains, IfOk, OnOk, [], ◌∷◌};
ghost use Rattle.std.specs.Prelude.{length, map, drop, get_or};
ghost use Rattle.std.specs.List.{flat_map};
ghost use Rattle.codec_graph.specs.declared.pin_kind.PinKind.TheVariants as pin_kind;
ghost use Rattle.codec_sound.specs.Signals.{IsAmong};
ghost use Rattle.stream_format.specs.Cadence.{block_bytes};
ghost use Rattle.stream_format.specs.Layouts.{layout};
ghost use Rattle.heard_frames.specs.declared.heard.Heard.TheVariants.{Hole};
ghost use Rattle.heard_lists.specs.Listings.{Listing, HasRoom, HasMarkRoom, AreListsAs, AreListsOf, AreEmpty};
ghost use Rattle.heard_lists.specs.Listings.{AreUnmarked, graphs_in, pins_of, handed_out, marks_out, list_of, marks_listed};
ghost use Rattle.heard_lists.specs.Listings.{forgotten, with_items, with_blocks, with_mark};
ghost use Rattle.heard_lists.specs.Stretches.{sound_bytes, stretches_of};

use crate::item_lists::ItemLists;
use crate::pin_marks::{PinMark, PinMarks};
use crate::reader::HeardReader;
use crate::sounds::Sounds;
use crate::stretches::Stretch;
use codec_graph::PinKind;
use hda_files::Machine;
use heard_frames::{Heard, Mark};
use std::alloc::{AllocError, Global};
use std::marker::Model;
use stream_format::{Bits, Format};

/// What the candidate pins of a machine's codecs hear, a list each, and at which of its items each was switched off and
/// on. The marks of all pins are kept together. Contracts see the lists, each with its marks and the room that was made.
/// This project's own.
#[derive(Drop)]
pub struct HeardLists {
    lists: ItemLists,
    marks: PinMarks,
    /// How many items of each list are no holes.
    blocks: usize,
}

impl Model for HeardLists {
    ghost use Rattle.std.specs.Prelude.{List, map};
    ghost use Rattle.heard_lists.specs.Listings.{Listing};
    ghost use Rattle.heard_lists.specs.Marked.{noted, HaveBlocks};

    ghost Value = { List Listing };

    ghost view = { λ h. map (noted h.marks.marks h.marks.room) h.lists };

    ghost invariant = { λ h. HaveBlocks h.blocks h.lists };
}

impl HeardLists {
    /// An empty list for each candidate pin of the machine's codecs, codecs ascending by address and each one's pins in
    /// their order.
    ///
    /// # Errors
    /// Want of memory.
    pub fn new(alloc: Global, machine: &Machine) -> Result<HeardLists, AllocError>
        ensures pins { IfOk result (λ lists. AreListsOf (graphs_in machine.now.codecs) lists) }
        ensures empty { IfOk result AreEmpty }
        ensures unmarked { IfOk result AreUnmarked }
    {
        HeardLists::of_kind(alloc, PinKind::Analog, machine)
    }

    /// An empty list for each digital candidate pin, in the same order: for what they hear as digital pins.
    ///
    /// # Errors
    /// Want of memory.
    pub fn digital(alloc: Global, machine: &Machine) -> Result<HeardLists, AllocError>
        ensures pins { IfOk result (λ lists. AreListsAs pin_kind.Digital (graphs_in machine.now.codecs) lists) }
        ensures empty { IfOk result AreEmpty }
        ensures unmarked { IfOk result AreUnmarked }
    {
        HeardLists::of_kind(alloc, PinKind::Digital, machine)
    }

    /// An empty list for each candidate pin of the kind, in the same order.
    ///
    /// # Errors
    /// Want of memory.
    pub fn of_kind(
        alloc: Global,
        kind: PinKind,
        machine: &Machine,
    ) -> Result<HeardLists, AllocError>
        ensures pins { IfOk result (λ lists. AreListsAs kind (graphs_in machine.now.codecs) lists) }
        ensures empty { IfOk result AreEmpty }
        ensures unmarked { IfOk result AreUnmarked }
    {
        let lists = ItemLists::of_kind(alloc, kind, machine)?;
        Ok(HeardLists {
            lists,
            marks: PinMarks::new(alloc),
            blocks: 0,
        })
    }

    /// No list at all.
    pub fn none(alloc: Global) -> HeardLists
        ensures { result ≡ [] }
    {
        HeardLists {
            lists: ItemLists::none(alloc),
            marks: PinMarks::new(alloc),
            blocks: 0,
        }
    }

    /// Makes room for so many more items in each list, and for so many more marks of all pins.
    ///
    /// # Errors
    /// Want of memory. Lists and marks stay as they were, with at least the room that they had.
    pub fn reserve(&mut self, blocks: u64, marks: u64) -> Result<(), AllocError>
        ensures room { OnOk result (HasRoom blocks self.new) }
        ensures kept { (items : ℕ) → HasRoom items self.old → HasRoom items self.new }
        ensures mark_room { OnOk result (HasMarkRoom marks self.new) }
        ensures mark_kept { (more : ℕ) → HasMarkRoom more self.old → HasMarkRoom more self.new }
        ensures lists { map handed_out self.new ≡ map handed_out self.old }
        ensures marks { map marks_out self.new ≡ map marks_out self.old }
    {
        self.marks.reserve(marks as usize)?;
        self.lists.reserve(blocks)
    }

    /// How many lists there are.
    pub fn len(&self) -> usize
        ensures { result ≡ length self.now }
    {
        self.lists.len()
    }

    /// The address of the codec of the list at a place, counted from 0, and its pin's node identifier.
    pub fn head(&self, place: usize) -> (u8, u8)
        requires { place < length self.now }
        ensures { (listing : Listing) → result
            ≡ ((get_or self.now place listing).codec, (get_or self.now place listing).pin) }
    {
        self.lists.head(place)
    }

    /// How many items each list has.
    pub fn count(&self) -> usize
        ensures { All (λ listing. length listing.list ≡ result) self.now }
    {
        self.lists.count()
    }

    /// The list at a place, counted from 0, to be read item by item from the item with a number on, counted from 0.
    pub fn reader(&self, place: usize, from: usize) -> HeardReader<'_>
        requires { place < length self.now }
        ensures { (listing : Listing) → result ≡ drop from (get_or self.now place listing).list }
    {
        self.lists.reader(place, from)
    }

    /// Forgets the items and the marks of all lists. Their room stays.
    pub fn clear(&mut self)
        ensures { self.new ≡ map forgotten self.old }
    {
        self.lists.clear();
        self.marks.clear();
        self.blocks = 0;
    }

    /// Puts the items of the list at a place, counted from 0, behind others, oldest first.
    ///
    /// # Errors
    /// Want of memory. Some of them may stand there then.
    pub fn push_list(&self, place: usize, items: &mut Vec<Heard>) -> Result<(), AllocError>
        requires { place < length self.now }
        ensures { (listing : Listing) → OnOk result
            (items.new.items ≡ items.old.items ++ (get_or self.now place listing).list) }
    {
        self.lists.push_list(place, items)
    }

    /// Puts the list at a place, counted from 0, in place of what stands there: its stretches, oldest first, and the
    /// bytes of its sound, each sample in the container of this size.
    ///
    /// # Errors
    /// Want of memory. Stretches and bytes are some then.
    pub fn put_stretches(
        &self,
        place: usize,
        bits: Bits,
        stretches: &mut Vec<Stretch>,
        sound: &mut Vec<u8>,
    ) -> Result<(), AllocError>
        requires { place < length self.now }
        ensures stretches { (listing : Listing) → OnOk result
            (stretches.new.items ≡ stretches_of (get_or self.now place listing).list) }
        ensures sound { (listing : Listing) → OnOk result
            (sound.new.items ≡ flat_map (sound_bytes bits) (get_or self.now place listing).list) }
    {
        self.lists.put_stretches(place, bits, stretches, sound)
    }

    /// What a candidate pin of the codec with this address heard, oldest first, as a list of its own.
    ///
    /// # Errors
    /// Want of memory.
    pub fn of(&self, alloc: Global, codec: u8, pin: u8) -> Result<Vec<Heard>, AllocError>
        requires { Contains (pins_of self.now) (codec, pin) }
        ensures { IfOk result (λ items. items.items ≡ list_of codec pin self.now) }
    {
        let place = self.place_of(codec, pin);
        let mut items = Vec::new(alloc);
        self.push_list(place, &mut items)?;
        Ok(items)
    }

    /// At which place the list of a candidate pin stands.
    fn place_of(&self, codec: u8, pin: u8) -> usize
        requires { Contains (pins_of self.now) (codec, pin) }
        ensures within { result < length self.now }
        ensures list { (listing : Listing) → (get_or self.now result listing).list ≡ list_of codec pin self.now }
    {
        for place in 0..self.len() {
            let (its_codec, its_pin) = self.head(place);
            if its_codec == codec && its_pin == pin {
                return place;
            }
        }
        unreachable!()
    }

    /// The marks of a candidate pin of the codec with this address, oldest first, as a list of its own.
    ///
    /// # Errors
    /// Want of memory.
    pub fn marks(&self, alloc: Global, codec: u8, pin: u8) -> Result<Vec<Mark>, AllocError>
        requires { Contains (pins_of self.now) (codec, pin) }
        ensures { IfOk result (λ marks. marks.items ≡ marks_listed codec pin self.now) }
    {
        self.marks.of(alloc, codec, pin)
    }

    /// Adds to each list what its pin hears of the blocks with these bytes, those of a link frame or of several in a
    /// row. There is room for an item a block, each pin's signal is known, and the pairs that pins hear are among the
    /// format's channels.
    pub fn hear<S: Sounds>(&mut self, sounds: &S, format: Format, bytes: &[u8])
        requires room { HasRoom (length bytes.now / block_bytes format) self.old }
        requires known { All (λ listing. S.IsKnown sounds.now listing.codec listing.pin) self.old }
        requires pairs { All (λ listing.
            IsAmong format.channels (S.signal_of sounds.now listing.codec listing.pin)) self.old }
        ensures lists { self.new ≡ map (with_blocks (S.signal_of sounds.now) (layout format) bytes.now) self.old }
        ensures room { (more : ℕ) → HasRoom (length bytes.now / block_bytes format + more) self.old
            → HasRoom more self.new }
    {
        if self.lists.len() == 0 {
            return;
        }
        let before = self.lists.count();
        self.lists.hear(sounds, format, bytes);
        self.blocks += self.lists.count() - before;
    }

    /// Adds a hole to each list: a link frame missed its blocks. There is room for it.
    pub fn miss(&mut self)
        requires { HasRoom 1 self.old }
        ensures lists { self.new ≡ map (with_items (Hole ∷ [])) self.old }
        ensures room { (more : ℕ) → HasRoom (1 + more) self.old → HasRoom more self.new }
    {
        self.lists.miss();
    }

    /// Puts a mark last for a pin of the codec with this address, behind the items that it has: whether it is on from
    /// there. There is room for it. A pin without a list gets none.
    pub fn mark(&mut self, codec: u8, pin: u8, on: bool)
        requires { HasMarkRoom 1 self.old }
        ensures lists { self.new ≡ map (with_mark codec pin on) self.old }
        ensures items { (items : ℕ) → HasRoom items self.old → HasRoom items self.new }
        ensures room { (more : ℕ) → HasMarkRoom (1 + more) self.old → HasMarkRoom more self.new }
    {
        if self.lists.len() == 0 {
            return;
        }
        let mark = Mark {
            at: self.blocks as u64,
            on,
        };
        self.marks.push(PinMark { codec, pin, mark });
    }
}
