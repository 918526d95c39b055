//! Signals that are kept until something changes on which they depend.
ghost use Rattle.std.specs.Prelude.{◌≡◌, ℕ, map, IfOk, Contains};
ghost use Rattle.codec_sound.specs.declared.signals.Signal.{Signal};
ghost use Rattle.codec_sound.specs.Signals.{hears_at};
ghost use Rattle.codec_sound.specs.Depths.{in_table};
ghost use Rattle.codec_sound.specs.Keeping as spec;

use crate::pins::hears;
use crate::signals::{Signal, Table};
use crate::sources::Sources;
use crate::streams::LinkStream;
use crate::table::outputs;
use codec_graph::{Graph, PinKind, RawCodec, Settings};
use std::alloc::{AllocError, Global};
use std::marker::Model;
use stream_format::Format;

/// How many node identifiers there are (HDA 1.0a, 7.1.2).
const NODES: usize = 256;

/// Pins of a codec, each with its signal, and how often the signals were renewed. This project's own.
#[derive(Debug, Drop)]
pub struct Kept {
    pins: Vec<(u8, Signal)>,
    /// Where among the pins to look for one first, by its node identifier.
    places: [u8; NODES],
    renewals: u64,
}

impl Model for Kept {
    ghost use Rattle.codec_sound.specs.Keeping.{KeptSignals};

    ghost Value = { KeptSignals };

    ghost view = { λ kept. record { pins = kept.pins.items; renewals = kept.renewals } };
}

impl Kept {
    /// Keeps the signals of some pins while a stream with this tag and format plays: without a format nothing is heard.
    /// The settings are the graph's.
    ///
    /// # Errors
    /// Want of memory.
    pub fn new(
        alloc: Global,
        graph: &Graph,
        settings: &Settings,
        pins: Vec<u8>,
        tag: u8,
        format: Option<Format>,
    ) -> Result<Kept, AllocError>
        ensures value { IfOk result (λ kept. kept ≡ record {
          pins = spec.with_signals (spec.signal_by graph.now settings.now tag format) pins.items;
          renewals = 0;
        }) }
        ensures pins { IfOk result (λ kept. spec.kept_pins kept.pins ≡ pins.items) }
    {
        Kept::new_as(alloc, PinKind::Analog, graph, settings, pins, tag, format)
    }

    /// Keeps the signals of some pins as those of the kind.
    ///
    /// # Errors
    /// Want of memory.
    pub fn new_as(
        alloc: Global,
        kind: PinKind,
        graph: &Graph,
        settings: &Settings,
        pins: Vec<u8>,
        tag: u8,
        format: Option<Format>,
    ) -> Result<Kept, AllocError>
        ensures value { IfOk result (λ kept. kept ≡ record {
          pins = spec.with_signals (spec.signal_by_as kind graph.now settings.now tag format) pins.items;
          renewals = 0;
        }) }
        ensures pins { IfOk result (λ kept. spec.kept_pins kept.pins ≡ pins.items) }
    {
        let mut kept = Kept {
            pins: silent_pins(alloc, pins.as_slice())?,
            places: places_of(pins.as_slice()),
            renewals: 0,
        };
        kept.work_out(kind, graph, settings, tag, format);
        Ok(kept)
    }

    /// Works the signals of the kept pins out anew, and counts this: at 2^64 - 1 the count stays. Works out what each
    /// node gives once, and takes no memory.
    #[tactic(auto, using(crate::proofs::Renewing::pins_of_renewed))]
    pub fn renew(&mut self, graph: &Graph, settings: &Settings, tag: u8, format: Option<Format>)
        ensures value { self.new ≡ record {
          pins = spec.renewed (spec.signal_by graph.now settings.now tag format) self.old.pins;
          renewals = spec.counted_on self.old.renewals;
        } }
        ensures pins { spec.kept_pins self.new.pins ≡ spec.kept_pins self.old.pins }
    {
        self.renew_as(PinKind::Analog, graph, settings, tag, format);
    }

    /// The same as those of the kind.
    #[tactic(auto, using(crate::proofs::Renewing::pins_of_renewed))]
    pub fn renew_as(
        &mut self,
        kind: PinKind,
        graph: &Graph,
        settings: &Settings,
        tag: u8,
        format: Option<Format>,
    )
        ensures value { self.new ≡ record {
          pins = spec.renewed (spec.signal_by_as kind graph.now settings.now tag format) self.old.pins;
          renewals = spec.counted_on self.old.renewals;
        } }
        ensures pins { spec.kept_pins self.new.pins ≡ spec.kept_pins self.old.pins }
    {
        self.work_out(kind, graph, settings, tag, format);
        self.renewals = self.renewals.saturating_add(1);
    }

    /// Works the signals of the kept pins out anew, without counting it.
    fn work_out(
        &mut self,
        kind: PinKind,
        graph: &Graph,
        settings: &Settings,
        tag: u8,
        format: Option<Format>,
    )
        ensures { self.new ≡ record self.old {
          pins = spec.renewed (spec.signal_by_as kind graph.now settings.now tag format) self.old.pins;
        } }
    {
        work_out(kind, graph, settings, tag, format, self.pins.as_mut_slice());
    }

    /// The signal of a kept pin, as it was worked out last.
    pub fn hear(&self, pin: u8) -> Signal
        requires { Contains (spec.kept_pins self.now.pins) pin }
        ensures kept { Contains self.now.pins (pin, result) }
        ensures worked_out { (signal : ℕ → Signal) → spec.AreKept signal self.now.pins → result ≡ signal pin }
    {
        let place = usize::from(self.places[usize::from(pin)]);
        match self.pins.get(place) {
            Some((kept, signal)) if *kept == pin => *signal,
            _ => self.find(pin),
        }
    }

    /// The same, by a look at each pin.
    fn find(&self, pin: u8) -> Signal
        requires { Contains (spec.kept_pins self.now.pins) pin }
        ensures kept { Contains self.now.pins (pin, result) }
        ensures worked_out { (signal : ℕ → Signal) → spec.AreKept signal self.now.pins → result ≡ signal pin }
    {
        for (kept, signal) in &self.pins {
            if *kept == pin {
                return *signal;
            }
        }
        unreachable!()
    }

    /// How often the signals were renewed.
    pub fn renewals(&self) -> u64
        ensures { result ≡ self.now.renewals }
    {
        self.renewals
    }
}

/// The place of each of some pins, by its node identifier.
fn places_of(pins: &[u8]) -> [u8; NODES] {
    let mut places = [0; NODES];
    for (place, pin) in pins.iter().enumerate() {
        places[usize::from(*pin)] = u8::try_from(place).unwrap_or(0);
    }
    places
}

/// Each of some pins, with nothing to hear.
fn silent_pins(alloc: Global, pins: &[u8]) -> Result<Vec<(u8, Signal)>, AllocError>
    ensures { IfOk result (λ kept. kept.items ≡ spec.with_signals (λ _. Signal.Silence) pins.now) }
{
    pins.iter()
        .map(|pin| (*pin, Signal::Silence))
        .collect(alloc)
}

/// Gives each pin what it hears now.
fn work_out(
    kind: PinKind,
    graph: &Graph,
    settings: &Settings,
    tag: u8,
    format: Option<Format>,
    pins: &mut [(u8, Signal)],
)
    ensures { pins.new ≡ spec.renewed (spec.signal_by_as kind graph.now settings.now tag format) pins.old }
{
    match format {
        Some(format) => {
            let sources = Sources::Converters(kind, LinkStream::new(tag, format));
            let table = outputs(sources, graph, settings);
            hear_all(kind, graph.raw(), settings, &table, pins);
        }
        None => silence_all(pins),
    }
}

/// Gives each pin what it hears where each node gives what the table says.
fn hear_all(
    kind: PinKind,
    codec: &RawCodec,
    settings: &Settings,
    table: &Table,
    pins: &mut [(u8, Signal)],
)
    ensures { pins.new ≡ spec.renewed (hears_at kind codec.now settings.now (in_table table.now)) pins.old }
{
    for kept in pins.iter_mut() {
        kept.1 = hears(kind, codec, settings, table, kept.0);
    }
}

/// Gives each pin nothing to hear.
fn silence_all(pins: &mut [(u8, Signal)])
    ensures { pins.new ≡ spec.renewed (λ _. Signal.Silence) pins.old }
{
    for kept in pins.iter_mut() {
        kept.1 = Signal::Silence;
    }
}
