//! What heard lists gain while link frames pass. The blocks that frames in a row carry are heard together, so that the
//! signals of pins are asked for once.
ghost use Rattle.std.specs.Prelude.{◌≡◌, ◌≤◌, ◌+◌, ◌*◌, ℕ, List, [], ◌∷◌, Some, length, map, take, vec_len};
ghost use Rattle.std.specs.Prelude.{vec_capacity};
ghost use Rattle.hda_world.specs.Worlds.{World};
ghost use Rattle.hda_world.specs.Steps as steps;
ghost use Rattle.stream_format.specs.Cadence.{bytes_of_block};
ghost use Rattle.stream_format.specs.Layouts.{Layout, layout_of};
ghost use Rattle.heard_frames.specs.declared.heard.Heard.TheVariants.{Hole};
ghost use Rattle.heard_lists.specs.Listings.{HasRoom, HasMarkRoom, with_blocks, with_items};
ghost use Rattle.hda_controller.specs.Controllers.{StandsFor, signal_now};
ghost use Rattle.hda_controller.specs.Hearing.{AreDue, AreHeardAs, CameAs, FramesHeardAs};
ghost use Rattle.hda_controller.specs.Unheard.{AreWhole, block_count, heard_now, layout_now};

use super::Controller;
use arrayvec::ArrayVec;
use heard_lists::HeardLists;
use stream_descriptor::{Frame, MOST_FRAME_BYTES};

/// How many bytes of blocks are kept before they are heard.
const UNHEARD_BYTES: usize = 512;

/// The bytes of blocks that link frames carried and no list heard yet.
type Unheard = ArrayVec<u8, UNHEARD_BYTES>;

impl Controller {
    /// Lets so many link frames pass.
    pub(super) fn link(&mut self, frames: u32, heard: &mut HeardLists, came: &mut Vec<bool>)
        requires room { HasRoom (4 * frames) heard.old }
        requires space { vec_len came.old + 4 * frames ≤ vec_capacity came.old }
        requires lists { AreHeardAs self.old.kind self.old.device.codecs heard.old }
        ensures stands { (memory : List ℕ) (world : World) → StandsFor memory self.old world
            → StandsFor memory self.new (steps.times frames steps.frame_step world) }
        ensures heard { (memory : List ℕ) (world : World) → StandsFor memory self.old world
            → FramesHeardAs self.old.kind world (steps.times frames steps.frame_step world) heard.old heard.new }
        ensures room { (more : ℕ) → HasRoom (4 * frames + more) heard.old → HasRoom more heard.new }
        ensures mark_room { (more : ℕ) → HasMarkRoom more heard.old → HasMarkRoom more heard.new }
        ensures kept { self.new.kept ≡ self.old.kept }
        ensures kind { self.new.kind ≡ self.old.kind }
        ensures came { (memory : List ℕ) (world : World) → StandsFor memory self.old world
            → CameAs world (steps.times frames steps.frame_step world) came.old.items came.new.items }
        ensures space { (more : ℕ) → vec_len came.old + (4 * frames + more) ≤ vec_capacity came.old
            → vec_len came.new + more ≤ vec_capacity came.new }
    {
        // The controller stands for some world, whose frames leave marks alone.
        self.device.is_some_world();
        if frames == 1 {
            self.link_alone(heard, came);
        } else {
            self.link_together(frames, heard, came);
        }
    }

    /// Lets a link frame pass, which is heard at once.
    fn link_alone(&mut self, heard: &mut HeardLists, came: &mut Vec<bool>)
        requires room { HasRoom 4 heard.old }
        requires space { vec_len came.old + 4 ≤ vec_capacity came.old }
        requires lists { AreHeardAs self.old.kind self.old.device.codecs heard.old }
        ensures stands { (memory : List ℕ) (world : World) → StandsFor memory self.old world
            → StandsFor memory self.new (steps.frame_step world) }
        ensures heard { (memory : List ℕ) (world : World) → StandsFor memory self.old world
            → FramesHeardAs self.old.kind world (steps.frame_step world) heard.old heard.new }
        ensures room { (more : ℕ) → HasRoom (4 + more) heard.old → HasRoom more heard.new }
        ensures kept { self.new.kept ≡ self.old.kept }
        ensures kind { self.new.kind ≡ self.old.kind }
        ensures came { (memory : List ℕ) (world : World) → StandsFor memory self.old world
            → CameAs world (steps.frame_step world) came.old.items came.new.items }
        ensures space { (more : ℕ) → vec_len came.old + (4 + more) ≤ vec_capacity came.old
            → vec_len came.new + more ≤ vec_capacity came.new }
    {
        // The controller stands for some world, by which a frame has at most four blocks.
        self.device.is_some_world();
        let mut bytes = [0; MOST_FRAME_BYTES];
        match self.frame(&mut bytes, came) {
            Frame::Idle => {}
            Frame::Gap => {}
            Frame::Blocks(blocks) => self.hear_frame(blocks, &bytes, heard),
            Frame::Hole => heard.miss(),
        }
    }

    /// Lets the lists hear so many blocks, which were due and stand at the front of `bytes`.
    fn hear_frame(&self, blocks: u32, bytes: &[u8; MOST_FRAME_BYTES], heard: &mut HeardLists)
        requires due { AreDue self.now.device.registers.output.format blocks }
        requires room { HasRoom 4 heard.old }
        requires lists { AreHeardAs self.now.kind self.now.device.codecs heard.old }
        ensures heard { (layout : Layout) → layout_of self.now.device.registers.output.format ≡ Some layout
            → heard.new ≡ map (with_blocks (signal_now self.now.kind self.now.device) layout
            (take (blocks * bytes_of_block layout.channels layout.bits) bytes.now)) heard.old }
        ensures room { (more : ℕ) → HasRoom (4 + more) heard.old → HasRoom more heard.new }
    {
        let Some(format) = self.format() else {
            unreachable!()
        };
        let size = (blocks * format.block_bytes()) as usize;
        heard.hear(self, format, &bytes[..size]);
    }

    /// Lets so many link frames pass, whose blocks are heard together.
    fn link_together(&mut self, frames: u32, heard: &mut HeardLists, came: &mut Vec<bool>)
        requires room { HasRoom (4 * frames) heard.old }
        requires space { vec_len came.old + 4 * frames ≤ vec_capacity came.old }
        requires lists { AreHeardAs self.old.kind self.old.device.codecs heard.old }
        ensures stands { (memory : List ℕ) (world : World) → StandsFor memory self.old world
            → StandsFor memory self.new (steps.times frames steps.frame_step world) }
        ensures heard { (memory : List ℕ) (world : World) → StandsFor memory self.old world
            → FramesHeardAs self.old.kind world (steps.times frames steps.frame_step world) heard.old heard.new }
        ensures room { (more : ℕ) → HasRoom (4 * frames + more) heard.old → HasRoom more heard.new }
        ensures kept { self.new.kept ≡ self.old.kept }
        ensures kind { self.new.kind ≡ self.old.kind }
        ensures came { (memory : List ℕ) (world : World) → StandsFor memory self.old world
            → CameAs world (steps.times frames steps.frame_step world) came.old.items came.new.items }
        ensures space { (more : ℕ) → vec_len came.old + (4 * frames + more) ≤ vec_capacity came.old
            → vec_len came.new + more ≤ vec_capacity came.new }
    {
        let mut bytes = [0; MOST_FRAME_BYTES];
        let mut unheard = Unheard::new();
        for _passed in 0..frames {
            self.link_frame(&mut bytes, &mut unheard, heard, came);
        }
        self.hear(unheard.as_slice(), heard);
    }

    /// Lets a link frame pass, whose bytes then stand at the front of `bytes`. Its blocks wait with those that are not
    /// heard yet; where it missed its blocks, these are heard first.
    fn link_frame(
        &mut self,
        bytes: &mut [u8; MOST_FRAME_BYTES],
        unheard: &mut Unheard,
        heard: &mut HeardLists,
        came: &mut Vec<bool>,
    )
        requires whole { AreWhole (layout_now self.old.device) unheard.old.items }
        requires room { HasRoom (block_count (layout_now self.old.device) unheard.old.items + 4) heard.old }
        requires lists { AreHeardAs self.old.kind self.old.device.codecs heard.old }
        requires space { vec_len came.old + 4 ≤ vec_capacity came.old }
        ensures stands { (memory : List ℕ) (world : World) → StandsFor memory self.old world
            → StandsFor memory self.new (steps.frame_step world) }
        ensures heard { (memory : List ℕ) (world : World) → StandsFor memory self.old world
            → FramesHeardAs self.old.kind world (steps.frame_step world)
            (heard_now self.old.kind self.old.device unheard.old.items heard.old)
            (heard_now self.new.kind self.new.device unheard.new.items heard.new) }
        ensures whole { AreWhole (layout_now self.new.device) unheard.new.items }
        ensures room { (more : ℕ)
            → HasRoom (block_count (layout_now self.old.device) unheard.old.items + (4 + more)) heard.old
            → HasRoom (block_count (layout_now self.new.device) unheard.new.items + more) heard.new }
        ensures lists { AreHeardAs self.new.kind self.new.device.codecs heard.new }
        ensures kept { self.new.kept ≡ self.old.kept }
        ensures kind { self.new.kind ≡ self.old.kind }
        ensures came { (memory : List ℕ) (world : World) → StandsFor memory self.old world
            → CameAs world (steps.frame_step world) came.old.items came.new.items }
        ensures space { (more : ℕ) → vec_len came.old + (4 + more) ≤ vec_capacity came.old
            → vec_len came.new + more ≤ vec_capacity came.new }
    {
        // The controller stands for some world, by which a frame has at most four blocks.
        self.device.is_some_world();
        match self.frame(bytes, came) {
            Frame::Idle => {}
            Frame::Gap => {}
            Frame::Blocks(blocks) => self.keep(blocks, bytes, unheard, heard),
            Frame::Hole => self.miss(unheard, heard),
        }
    }

    /// Puts so many blocks, which were due and stand at the front of `bytes`, behind those that are not heard yet.
    fn keep(
        &self,
        blocks: u32,
        bytes: &[u8; MOST_FRAME_BYTES],
        unheard: &mut Unheard,
        heard: &mut HeardLists,
    )
        requires due { AreDue self.now.device.registers.output.format blocks }
        requires whole { AreWhole (layout_now self.now.device) unheard.old.items }
        requires room { HasRoom (block_count (layout_now self.now.device) unheard.old.items + 4) heard.old }
        requires lists { AreHeardAs self.now.kind self.now.device.codecs heard.old }
        ensures heard { (layout : Layout) → layout_of self.now.device.registers.output.format ≡ Some layout
            → heard_now self.now.kind self.now.device unheard.new.items heard.new
            ≡ map (with_blocks (signal_now self.now.kind self.now.device) layout
            (take (blocks * bytes_of_block layout.channels layout.bits) bytes.now))
            (heard_now self.now.kind self.now.device unheard.old.items heard.old) }
        ensures whole { AreWhole (layout_now self.now.device) unheard.new.items }
        ensures room { (more : ℕ)
            → HasRoom (block_count (layout_now self.now.device) unheard.old.items + (4 + more)) heard.old
            → HasRoom (block_count (layout_now self.now.device) unheard.new.items + more) heard.new }
        ensures lists { AreHeardAs self.now.kind self.now.device.codecs heard.new }
    {
        let Some(format) = self.format() else {
            unreachable!()
        };
        let size = (blocks * format.block_bytes()) as usize;
        self.keep_bytes(&bytes[..size], unheard, heard);
    }

    /// Puts the bytes of blocks behind those that are not heard yet. Where there is no room, these are heard first.
    fn keep_bytes(&self, bytes: &[u8], unheard: &mut Unheard, heard: &mut HeardLists)
        requires few { length bytes.now ≤ 128 }
        requires whole { AreWhole (layout_now self.now.device) bytes.now }
        requires before { AreWhole (layout_now self.now.device) unheard.old.items }
        requires room { HasRoom (block_count (layout_now self.now.device) unheard.old.items) heard.old }
        requires lists { AreHeardAs self.now.kind self.now.device.codecs heard.old }
        ensures heard { heard_now self.now.kind self.now.device unheard.new.items heard.new
            ≡ heard_now self.now.kind self.now.device bytes.now
            (heard_now self.now.kind self.now.device unheard.old.items heard.old) }
        ensures whole { AreWhole (layout_now self.now.device) unheard.new.items }
        ensures room { (more : ℕ) → HasRoom (block_count (layout_now self.now.device) unheard.old.items
            + (block_count (layout_now self.now.device) bytes.now + more)) heard.old
            → HasRoom (block_count (layout_now self.now.device) unheard.new.items + more) heard.new }
        ensures lists { AreHeardAs self.now.kind self.now.device.codecs heard.new }
    {
        match unheard.try_extend_from_slice(bytes) {
            Ok(()) => {}
            Err(_full) => self.keep_first(bytes, unheard, heard),
        }
    }

    /// Lets the lists hear the blocks that are not heard yet, and keeps these bytes in their place.
    fn keep_first(&self, bytes: &[u8], unheard: &mut Unheard, heard: &mut HeardLists)
        requires few { length bytes.now ≤ 128 }
        requires room { HasRoom (block_count (layout_now self.now.device) unheard.old.items) heard.old }
        requires lists { AreHeardAs self.now.kind self.now.device.codecs heard.old }
        ensures bytes { unheard.new.items ≡ bytes.now }
        ensures heard { heard.new ≡ heard_now self.now.kind self.now.device unheard.old.items heard.old }
        ensures room { (more : ℕ)
            → HasRoom (block_count (layout_now self.now.device) unheard.old.items + more) heard.old
            → HasRoom more heard.new }
        ensures lists { AreHeardAs self.now.kind self.now.device.codecs heard.new }
    {
        self.hear(unheard.as_slice(), heard);
        unheard.clear();
        match unheard.try_extend_from_slice(bytes) {
            Ok(()) => {}
            Err(_full) => unreachable!(),
        }
    }

    /// Lets the lists hear the blocks that are not heard yet, and then a hole.
    fn miss(&self, unheard: &mut Unheard, heard: &mut HeardLists)
        requires whole { AreWhole (layout_now self.now.device) unheard.old.items }
        requires room { HasRoom (block_count (layout_now self.now.device) unheard.old.items + 1) heard.old }
        requires lists { AreHeardAs self.now.kind self.now.device.codecs heard.old }
        ensures none { unheard.new.items ≡ [] }
        ensures heard { heard.new ≡ map (with_items (Hole ∷ []))
            (heard_now self.now.kind self.now.device unheard.old.items heard.old) }
        ensures room { (more : ℕ)
            → HasRoom (block_count (layout_now self.now.device) unheard.old.items + (1 + more)) heard.old
            → HasRoom more heard.new }
        ensures lists { AreHeardAs self.now.kind self.now.device.codecs heard.new }
    {
        self.hear(unheard.as_slice(), heard);
        unheard.clear();
        heard.miss();
    }

    /// Lets the lists hear the blocks with these bytes.
    fn hear(&self, bytes: &[u8], heard: &mut HeardLists)
        requires room { HasRoom (block_count (layout_now self.now.device) bytes.now) heard.old }
        requires lists { AreHeardAs self.now.kind self.now.device.codecs heard.old }
        ensures heard { heard.new ≡ heard_now self.now.kind self.now.device bytes.now heard.old }
        ensures room { (more : ℕ) → HasRoom (block_count (layout_now self.now.device) bytes.now + more) heard.old
            → HasRoom more heard.new }
        ensures lists { AreHeardAs self.now.kind self.now.device.codecs heard.new }
    {
        if let Some(format) = self.format() {
            heard.hear(self, format, bytes);
        }
    }
}
