//! The signals of one pin.
ghost use Rattle.std.specs.Prelude.{◌≡◌, ◌≤◌, ◌<◌, ◌++◌, [], OnOk, OnErr, max, length, get_or};
ghost use Rattle.codec_sound.specs.declared.signals.Signal.TheVariants.{Silence};
ghost use Rattle.heard_lists.specs.Pieces.{PinSignals, with_signal, without_signals};

use codec_sound::Signal;
use hda_items::Items;
use heard_frames::Heard;
use std::alloc::{AllocError, Global};
use std::marker::Model;

/// What a candidate pin heard: one item for each block of the stream, and one for each link frame that missed its
/// blocks. This project's own.
#[derive(Debug, Drop)]
pub struct PinHeard {
    /// The address of the pin's codec.
    pub codec: u8,
    /// Its node identifier.
    pub pin: u8,
    /// Its items, oldest first.
    pub list: Items<Heard>,
}

/// A pin, with its signal in each piece of what was heard.
#[derive(Drop)]
pub(crate) struct PinList {
    codec: u8,
    pin: u8,
    signals: Vec<Signal>,
    /// For how many more signals there is room.
    room: usize,
}

impl Model for PinList {
    ghost use Rattle.std.specs.Prelude.{◌≤◌, ◌+◌, vec_len, vec_capacity};
    ghost use Rattle.heard_lists.specs.Pieces.{PinSignals};

    ghost Value = { PinSignals };

    ghost view = { λ l. record { codec = l.codec; pin = l.pin; signals = l.signals.items; room = l.room } };

    ghost invariant = { λ l. vec_len l.signals + l.room ≤ vec_capacity l.signals };
}

impl PinList {
    /// A pin without signals, and without room.
    pub(crate) fn new(alloc: Global, codec: u8, pin: u8) -> PinList
        ensures { result ≡ record { codec = codec; pin = pin; signals = []; room = 0 } }
    {
        PinList {
            codec,
            pin,
            signals: Vec::new(alloc),
            room: 0,
        }
    }

    /// Makes room for so many more signals.
    ///
    /// # Errors
    /// Want of memory. Nothing changes then.
    pub(crate) fn reserve(&mut self, signals: usize) -> Result<(), AllocError>
        ensures ok { OnOk result (self.new ≡ record self.old { room = max self.old.room signals }) }
        ensures err { OnErr result (self.new ≡ self.old) }
    {
        if signals > self.room {
            self.signals.reserve(signals)?;
            self.room = signals;
        }
        Ok(())
    }

    /// Puts a signal last, for which there is room.
    pub(crate) fn push(&mut self, signal: Signal)
        requires { 0 < self.old.room }
        ensures { self.new ≡ with_signal signal self.old }
    {
        if self.signals.push(signal).is_err() {
            unreachable!();
        }
        self.room -= 1;
    }

    /// Forgets its signals. Its room stays.
    pub(crate) fn clear(&mut self)
        ensures { self.new ≡ without_signals self.old }
    {
        self.signals.clear();
    }

    /// The signal in the piece with this number, counted from 0.
    pub(crate) fn signal(&self, piece: usize) -> Signal
        requires { piece < length self.now.signals }
        ensures { result ≡ get_or self.now.signals piece Silence }
    {
        self.signals[piece]
    }

    /// The address of the pin's codec.
    pub(crate) fn codec(&self) -> u8
        ensures { result ≡ self.now.codec }
    {
        self.codec
    }

    /// The pin's node identifier.
    pub(crate) fn pin(&self) -> u8
        ensures { result ≡ self.now.pin }
    {
        self.pin
    }

    /// Its signals, one for each piece.
    pub(crate) fn signals(&self) -> &[Signal]
        ensures { result.now ≡ self.now.signals }
    {
        self.signals.as_slice()
    }
}
