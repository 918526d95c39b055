//! The items of the heard lists of a machine.
ghost use Rattle.std.specs.Prelude.{◌≡◌, ◌≤◌, ◌<◌, ◌+◌, ◌*◌, ◌/◌, ◌^◌, ◌++◌, ℕ, List, All, length, [], ◌∷◌, IfOk, OnOk};
ghost use Rattle.std.specs.Prelude.{Contains, map, drop, vec_len, vec_capacity, get_or, IsTrue};
ghost use Rattle.std.specs.List.{AllZip, flat_map};
ghost use Rattle.heard_frames.specs.declared.heard.Heard.TheVariants.{Hole};
ghost use Rattle.codec_sound.specs.declared.signals.Signal.TheVariants.{Silence};
ghost use Rattle.stream_format.specs.Cadence.{block_bytes};
ghost use Rattle.stream_format.specs.Layouts.{layout};
ghost use Rattle.codec_sound.specs.Signals.{IsAmong};
ghost use Rattle.codec_graph.specs.declared.pin_kind.PinKind.TheVariants as pin_kind;
ghost use Rattle.heard_lists.specs.Listings.{Listing, forgotten, with_blocks, HasRoom, AreListsAs, AreListsOf};
ghost use Rattle.heard_lists.specs.Listings.{AreEmpty};
ghost use Rattle.heard_lists.specs.Listings.{graphs_in, pins_of, handed_out, list_of, with_items};
ghost use Rattle.heard_lists.specs.declared.pieces.Piece.{Piece};
ghost use Rattle.heard_lists.specs.Pieces.{signalled, pieces_items, pieces_size, empty_pins, without_room, HaveRoom};
ghost use Rattle.heard_lists.specs.Pieces.{without_signals, AreAsIn, GoesOn, TookIn};
ghost use Rattle.heard_lists.specs.Stretches.{sound_bytes, stretches_of};

use crate::blocks::{push_blocks, push_holes};
use crate::pieces::Piece;
use crate::pin_list::PinList;
use crate::reader::HeardReader;
use crate::sounds::Sounds;
use crate::stretches::{Stretch, put_pieces};
use codec_graph::{PinKind, order_as};
use codec_sound::Signal;
use hda_files::Machine;
use hda_items::{extend_within_capacity, push_within_capacity};
use heard_frames::Heard;
use std::alloc::{AllocError, AllocFailed, Global};
use std::marker::Model;
use stream_format::{Bits, Format};

/// How many bytes a block has at most: eight channels of 32 bits.
const MOST_BLOCK_BYTES: usize = 32;

/// For how many more items room is made at least, so that steps of a link frame seldom make any.
const LEAST_ROOM: u64 = 256;

/// What the candidate pins of a machine's codecs hear, a list each. The bytes of the blocks are kept once for all pins.
/// Contracts see the lists, each with the room that was made for it, and without marks. This project's own.
#[derive(Drop)]
pub(crate) struct ItemLists {
    lists: Vec<PinList>,
    pieces: Vec<Piece>,
    /// The bytes of all blocks, oldest first.
    bytes: Vec<u8>,
    /// How many link frames missed their blocks since the last piece.
    holes: usize,
    /// How many items each list has.
    count: usize,
    /// For how many more items there is room.
    room: usize,
}

impl Model for ItemLists {
    ghost use Rattle.std.specs.Prelude.{◌≡◌, ◌≤◌, ◌<◌, ◌+◌, ◌*◌, ◌^◌, List, map, vec_len, vec_capacity};
    ghost use Rattle.heard_lists.specs.Listings.{Listing};
    ghost use Rattle.heard_lists.specs.Pieces.{listing_of, pieces_count, AreKept};

    ghost Value = { List Listing };

    ghost view = { λ h. map (listing_of h.pieces.items h.bytes.items h.holes h.room) h.lists.items };

    ghost invariant = { λ h. AreKept h.lists.items h.pieces.items h.bytes.items h.room
        × (vec_len h.bytes + 32 * h.room ≤ vec_capacity h.bytes)
        × (vec_len h.pieces + h.room ≤ vec_capacity h.pieces)
        × (pieces_count h.pieces.items + h.holes ≡ h.count) × (h.count + h.room < 2 ^ 64) };
}

impl ItemLists {
    /// An empty list for each candidate pin of the kind of the machine's codecs, codecs ascending by address and each
    /// one's pins in their order.
    ///
    /// # Errors
    /// Want of memory.
    pub(crate) fn of_kind(
        alloc: Global,
        kind: PinKind,
        machine: &Machine,
    ) -> Result<ItemLists, AllocError>
        ensures pins { IfOk result (λ lists. AreListsAs kind (graphs_in machine.now.codecs) lists) }
        ensures empty { IfOk result AreEmpty }
    {
        let mut lists = Vec::new(alloc);
        for codec in machine.codecs.as_slice() {
            let pins = order_as(alloc, kind, &codec.graph)?;
            add_lists(&mut lists, codec.graph.raw().address, pins.as_slice())?;
        }
        Ok(ItemLists {
            lists,
            pieces: Vec::new(alloc),
            bytes: Vec::new(alloc),
            holes: 0,
            count: 0,
            room: 0,
        })
    }

    /// Makes room for so many more items in each list.
    ///
    /// # Errors
    /// Want of memory. The lists stay as they were, with at least the room that they had.
    pub(crate) fn reserve(&mut self, blocks: u64) -> Result<(), AllocError>
        ensures room { OnOk result (HasRoom blocks self.new) }
        ensures kept { (items : ℕ) → HasRoom items self.old → HasRoom items self.new }
        ensures lists { map handed_out self.new ≡ map handed_out self.old }
    {
        if blocks as usize <= self.room {
            return Ok(());
        }
        self.make_room(blocks.max(LEAST_ROOM))
    }

    /// Makes room for so many more items in each list, unless there is.
    fn make_room(&mut self, blocks: u64) -> Result<(), AllocError>
        ensures room { OnOk result (HasRoom blocks self.new) }
        ensures kept { (items : ℕ) → HasRoom items self.old → HasRoom items self.new }
        ensures lists { map handed_out self.new ≡ map handed_out self.old }
    {
        let items = blocks as usize;
        if items <= self.room {
            return Ok(());
        }
        let Some(bytes) = items.checked_mul(MOST_BLOCK_BYTES) else {
            return Err(AllocError);
        };
        if self.count.checked_add(items).is_none() {
            return Err(AllocError);
        }
        self.bytes.reserve(bytes)?;
        self.pieces.reserve(items)?;
        reserve_all(self.lists.as_mut_slice(), items)?;
        self.room = items;
        Ok(())
    }

    /// No list at all.
    pub(crate) fn none(alloc: Global) -> ItemLists
        ensures { result ≡ [] }
    {
        ItemLists {
            lists: Vec::new(alloc),
            pieces: Vec::new(alloc),
            bytes: Vec::new(alloc),
            holes: 0,
            count: 0,
            room: 0,
        }
    }

    /// How many lists there are.
    pub(crate) fn len(&self) -> usize
        ensures { result ≡ length self.now }
    {
        self.lists.len()
    }

    /// The address of the codec of the list at a place, counted from 0, and its pin's node identifier.
    pub(crate) fn head(&self, place: usize) -> (u8, u8)
        requires { place < length self.now }
        ensures { (listing : Listing) → result
            ≡ ((get_or self.now place listing).codec, (get_or self.now place listing).pin) }
    {
        let list = &self.lists[place];
        (list.codec(), list.pin())
    }

    /// How many items each list has.
    pub(crate) fn count(&self) -> usize
        ensures { All (λ listing. length listing.list ≡ result) self.now }
    {
        self.count
    }

    /// The list at a place, counted from 0, to be read item by item from the item with a number on, counted from 0.
    pub(crate) fn reader(&self, place: usize, from: usize) -> HeardReader<'_>
        requires { place < length self.now }
        ensures { (listing : Listing) → result ≡ drop from (get_or self.now place listing).list }
    {
        HeardReader::new(
            self.pieces.as_slice(),
            self.lists[place].signals(),
            self.bytes.as_slice(),
            self.holes,
            from,
        )
    }

    /// Forgets the items of all lists. Their room stays.
    pub(crate) fn clear(&mut self)
        ensures { self.new ≡ map forgotten self.old }
    {
        clear_all(self.lists.as_mut_slice());
        self.pieces.clear();
        self.bytes.clear();
        self.holes = 0;
        self.count = 0;
    }

    /// Puts the items of the list at a place, counted from 0, behind others, oldest first.
    ///
    /// # Errors
    /// Want of memory. Some of them may stand there then.
    pub(crate) fn push_list(&self, place: usize, items: &mut Vec<Heard>) -> Result<(), AllocError>
        requires { place < length self.now }
        ensures { (listing : Listing) → OnOk result
            (items.new.items ≡ items.old.items ++ (get_or self.now place listing).list) }
    {
        push_pieces(
            items,
            self.pieces.as_slice(),
            self.lists[place].signals(),
            self.bytes.as_slice(),
        )?;
        push_holes(items, self.holes)
    }

    /// Puts the list at a place, counted from 0, in place of what stands there: its stretches, oldest first, and the
    /// bytes of its sound, each sample in the container of this size.
    ///
    /// # Errors
    /// Want of memory. Stretches and bytes are some then.
    pub(crate) fn put_stretches(
        &self,
        place: usize,
        bits: Bits,
        stretches: &mut Vec<Stretch>,
        sound: &mut Vec<u8>,
    ) -> Result<(), AllocError>
        requires { place < length self.now }
        ensures stretches { (listing : Listing) → OnOk result
            (stretches.new.items ≡ stretches_of (get_or self.now place listing).list) }
        ensures sound { (listing : Listing) → OnOk result
            (sound.new.items ≡ flat_map (sound_bytes bits) (get_or self.now place listing).list) }
    {
        stretches.clear();
        sound.clear();
        put_pieces(
            stretches,
            sound,
            bits,
            self.pieces.as_slice(),
            self.lists[place].signals(),
            self.bytes.as_slice(),
            self.holes,
        )
    }

    /// Adds to each list what its pin hears of the blocks with these bytes, those of a link frame or of several in a
    /// row. There is room for an item a block, each pin's signal is known, and the pairs that pins hear are among the
    /// format's channels.
    pub(crate) fn hear<S: Sounds>(&mut self, sounds: &S, format: Format, bytes: &[u8])
        requires room { HasRoom (length bytes.now / block_bytes format) self.old }
        requires known { All (λ listing. S.IsKnown sounds.now listing.codec listing.pin) self.old }
        requires pairs { All (λ listing.
            IsAmong format.channels (S.signal_of sounds.now listing.codec listing.pin)) self.old }
        ensures lists { self.new ≡ map (with_blocks (S.signal_of sounds.now) (layout format) bytes.now) self.old }
        ensures room { (more : ℕ) → HasRoom (length bytes.now / block_bytes format + more) self.old
            → HasRoom more self.new }
    {
        let size = format.block_bytes() as usize;
        let blocks = bytes.len() / size;
        if blocks == 0 || self.lists.is_empty() {
            return;
        }
        take_in(
            self.lists.as_mut_slice(),
            &mut self.pieces,
            self.holes,
            sounds,
            format,
            blocks,
        );
        self.holes = 0;
        self.count += blocks;
        extend_within_capacity(&mut self.bytes, &bytes[..blocks * size]);
        self.room -= blocks;
    }

    /// Adds a hole to each list: a link frame missed its blocks. There is room for it.
    pub(crate) fn miss(&mut self)
        requires { HasRoom 1 self.old }
        ensures lists { self.new ≡ map (with_items (Hole ∷ [])) self.old }
        ensures room { (more : ℕ) → HasRoom (1 + more) self.old → HasRoom more self.new }
    {
        if self.lists.is_empty() {
            return;
        }
        self.holes += 1;
        self.count += 1;
        self.room -= 1;
    }
}

/// Adds a pin without signals for each of a codec's pins.
fn add_lists(lists: &mut Vec<PinList>, codec: u8, pins: &[u8]) -> Result<(), AllocFailed<PinList>>
    ensures { OnOk result (lists.new.items ≡ lists.old.items ++ empty_pins codec pins.now) }
{
    let alloc = *lists.allocator();
    for pin in pins {
        lists.push(PinList::new(alloc, codec, *pin))?;
    }
    Ok(())
}

/// Forgets the signals of each pin.
fn clear_all(lists: &mut [PinList])
    ensures { lists.new ≡ map without_signals lists.old }
{
    for list in lists.iter_mut() {
        list.clear();
    }
}

/// Makes room for so many more signals of each pin.
fn reserve_all(lists: &mut [PinList], signals: usize) -> Result<(), AllocError>
    ensures room { OnOk result (HaveRoom signals lists.new) }
    ensures kept { (more : ℕ) → HaveRoom more lists.old → HaveRoom more lists.new }
    ensures lists { map without_room lists.new ≡ map without_room lists.old }
{
    for list in lists.iter_mut() {
        list.reserve(signals)?;
    }
    Ok(())
}

/// Takes blocks into the last piece where they go on with it, and else begins a new one with so many holes.
fn take_in<S: Sounds>(
    lists: &mut [PinList],
    pieces: &mut Vec<Piece>,
    holes: usize,
    sounds: &S,
    format: Format,
    blocks: usize,
)
    requires known { All (λ pin. S.IsKnown sounds.now pin.codec pin.pin) lists.old }
    requires each { All (λ pin. length pin.signals ≡ length pieces.old.items) lists.old }
    requires pairs { All (λ pin. IsAmong format.channels (S.signal_of sounds.now pin.codec pin.pin)) lists.old }
    requires room { HaveRoom 1 lists.old }
    requires piece { vec_len pieces.old < vec_capacity pieces.old }
    requires few { pieces_size pieces.old.items + blocks < 2 ^ 64 }
    ensures took { TookIn (S.signal_of sounds.now) format blocks holes lists.old lists.new pieces.old.items
        pieces.new.items }
    ensures length { vec_len pieces.new ≤ vec_len pieces.old + 1 }
    ensures capacity { vec_capacity pieces.old ≤ vec_capacity pieces.new }
{
    if goes_on(lists, pieces.as_slice(), holes, sounds, format) {
        lengthen(pieces, blocks);
        return;
    }
    push_within_capacity(
        pieces,
        Piece {
            holes,
            format,
            blocks,
        },
    );
    add_signals(lists, sounds);
}

/// Whether blocks of this format go on with the last piece: no frame missed its blocks since, and each pin has the
/// signal that it has in that piece.
fn goes_on<S: Sounds>(
    lists: &[PinList],
    pieces: &[Piece],
    holes: usize,
    sounds: &S,
    format: Format,
) -> bool
    requires known { All (λ pin. S.IsKnown sounds.now pin.codec pin.pin) lists.now }
    requires each { All (λ pin. length pin.signals ≡ length pieces.now) lists.now }
    ensures { IsTrue result → GoesOn lists.now pieces.now holes (S.signal_of sounds.now) format }
{
    if holes != 0 || pieces.is_empty() {
        return false;
    }
    let last = pieces.len() - 1;
    is_same(pieces[last].format, format) && are_as_in(lists, sounds, last)
}

/// Whether two formats are the same.
fn is_same(first: Format, second: Format) -> bool
    ensures { IsTrue result → layout first ≡ layout second }
{
    first.rate == second.rate && first.bits == second.bits && first.channels == second.channels
}

/// Whether each pin has the signal that it has in a piece.
fn are_as_in<S: Sounds>(lists: &[PinList], sounds: &S, piece: usize) -> bool
    requires known { All (λ pin. S.IsKnown sounds.now pin.codec pin.pin) lists.now }
    requires there { All (λ pin. piece < length pin.signals) lists.now }
    ensures { IsTrue result → AreAsIn lists.now piece (S.signal_of sounds.now) }
{
    for list in lists {
        if list.signal(piece) != sounds.signal(list.codec(), list.pin()) {
            return false;
        }
    }
    true
}

/// Adds blocks to the last piece.
fn lengthen(pieces: &mut Vec<Piece>, blocks: usize)
    requires some { 0 < length pieces.old.items }
    requires few { pieces_size pieces.old.items + blocks < 2 ^ 64 }
    ensures items { (before : List Piece) (last : Piece) → pieces.old.items ≡ before ++ last ∷ []
        → pieces.new.items ≡ before ++ record last { blocks = last.blocks + blocks } ∷ [] }
    ensures length { vec_len pieces.new ≡ vec_len pieces.old }
    ensures capacity { vec_capacity pieces.old ≤ vec_capacity pieces.new }
{
    let last = pieces.len() - 1;
    pieces[last].blocks += blocks;
}

/// Adds to each pin its signal in a new piece.
fn add_signals<S: Sounds>(lists: &mut [PinList], sounds: &S)
    requires room { HaveRoom 1 lists.old }
    requires known { All (λ pin. S.IsKnown sounds.now pin.codec pin.pin) lists.old }
    ensures { lists.new ≡ map (signalled (S.signal_of sounds.now)) lists.old }
{
    for list in lists.iter_mut() {
        let signal = sounds.signal(list.codec(), list.pin());
        list.push(signal);
    }
}

/// Puts last what a pin with these signals heard in pieces.
fn push_pieces(
    items: &mut Vec<Heard>,
    pieces: &[Piece],
    signals: &[Signal],
    bytes: &[u8],
) -> Result<(), AllocError>
    requires among { AllZip (λ piece signal. IsAmong piece.format.channels signal) pieces.now signals.now }
    requires whole { pieces_size pieces.now ≤ length bytes.now }
    ensures { OnOk result (items.new.items ≡ items.old.items ++ pieces_items pieces.now signals.now bytes.now) }
{
    let mut rest = bytes;
    for place in 0..pieces.len() {
        let piece = pieces[place];
        let signal = signal_at(signals, place);
        push_holes(items, piece.holes)?;
        push_blocks(items, signal, piece.format, rest, piece.blocks)?;
        rest = after(rest, piece.format, piece.blocks);
    }
    Ok(())
}

/// The bytes after so many blocks.
pub(crate) fn after(bytes: &[u8], format: Format, blocks: usize) -> &[u8]
    requires { blocks * block_bytes format ≤ length bytes.now }
    ensures { result.now ≡ drop (blocks * block_bytes format) bytes.now }
{
    let size = format.block_bytes() as usize;
    &bytes[blocks * size..]
}

/// The signal at a place.
pub(crate) fn signal_at(signals: &[Signal], place: usize) -> Signal
    requires { place < length signals.now }
    ensures { result ≡ get_or signals.now place Silence }
{
    signals[place]
}
