//! What waits at a codec, in the order in which it came.
ghost use Rattle.std.specs.Prelude.{◌≡◌, ◌≤◌, ◌==◌, ◌&&◌, not, [], ◌∷◌, ◌++◌, false, true, IfOk, length, drop, nat_lt};
ghost use Rattle.std.specs.Prelude.{slice_get};
ghost use Rattle.std.specs.List.{list_any};
ghost use Rattle.codec_graph.specs.CodecStates as codecs;
ghost use Rattle.codec_graph.specs.declared.waiting.Waiting.TheVariants as item;
ghost use Rattle.circular_buffer.specs.Buffer.{buffer};

use circular_buffer::HeapCircularBuffer;
use codec_graph::{MOST_ANSWERS, MOST_UNSOLICITED, Waiting};
use std::alloc::{AllocError, Global};
use std::marker::Model;

/// At most [`MOST_ANSWERS`] answers to commands and [`MOST_UNSOLICITED`] unsolicited responses, first come first.
/// Contracts see the items.
#[derive(Drop)]
pub(crate) struct Queue {
    items: HeapCircularBuffer<Waiting>,
    answers: usize,
    unsolicited: usize,
}

impl Model for Queue {
    ghost use Rattle.std.specs.Prelude.{List};
    ghost use Rattle.codec_graph.specs.declared.waiting.Waiting.{Waiting};

    ghost Value = { List Waiting };

    ghost use Rattle.codec_nodes.specs.Counts.{IsCounted};

    ghost view = { λ queue. queue.items.items };

    ghost invariant = { λ queue. IsCounted queue.items queue.answers queue.unsolicited };
}

impl Queue {
    /// Nothing waits. All the room that the queue needs is made.
    ///
    /// # Errors
    /// Want of memory.
    pub(crate) fn new(alloc: Global) -> Result<Queue, AllocError>
        ensures { IfOk result (λ queue. queue ≡ []) }
    {
        let items = HeapCircularBuffer::with_capacity(alloc, MOST_ANSWERS + MOST_UNSOLICITED)?;
        Ok(Queue {
            items,
            answers: 0,
            unsolicited: 0,
        })
    }

    /// Whether as many answers to commands wait as can.
    pub(crate) fn is_full(&self) -> bool
        ensures { result ≡ (codecs.answers self.now == codecs.most_answers) }
    {
        self.answers == MOST_ANSWERS
    }

    /// Whether another unsolicited response can wait.
    pub(crate) fn has_room(&self) -> bool
        ensures { result ≡ nat_lt (codecs.unsolicited self.now) codecs.most_unsolicited }
    {
        self.unsolicited < MOST_UNSOLICITED
    }

    /// Puts the answer to a command last.
    pub(crate) fn push_answer(&mut self, word: u32)
        requires { (codecs.answers self.old == codecs.most_answers) ≡ false }
        ensures { self.new ≡ self.old ++ item.Answer word ∷ [] }
    {
        self.items.push_back(Waiting::Answer(word));
        self.answers += 1;
    }

    /// Puts an unsolicited response last.
    pub(crate) fn push_unsolicited(&mut self, word: u32)
        requires { nat_lt (codecs.unsolicited self.old) codecs.most_unsolicited ≡ true }
        ensures { self.new ≡ self.old ++ item.Unsolicited word ∷ [] }
    {
        self.items.push_back(Waiting::Unsolicited(word));
        self.unsolicited += 1;
    }

    /// Takes the first item out. `None` exactly where nothing waits.
    pub(crate) fn pop(&mut self) -> Option<Waiting>
        ensures value { result ≡ slice_get self.old 0 }
        ensures after { self.new ≡ drop 1 self.old }
    {
        let item = self.items.pop_front();
        match item {
            Some(Waiting::Answer(_)) => self.answers -= 1,
            Some(Waiting::Unsolicited(_)) => self.unsolicited -= 1,
            None => {}
        }
        item
    }

    /// Takes the first answer to a command out, wherever it stands. False exactly where there is none.
    pub(crate) fn drop_answer(&mut self) -> bool
        ensures value { result ≡ list_any codecs.is_answer self.old }
        ensures after { self.new ≡ codecs.drop_answer self.old }
    {
        if self.answers == 0 {
            return false;
        }
        drop_first_answer(&mut self.items);
        self.answers -= 1;
        true
    }

    /// Drops all that waits.
    pub(crate) fn clear(&mut self)
        ensures { self.new ≡ [] }
    {
        self.items.clear();
        self.answers = 0;
        self.unsolicited = 0;
    }
}

/// Takes each item out and puts it last again, but for the first answer to a command.
fn drop_first_answer(items: &mut HeapCircularBuffer<Waiting>)
    ensures { items.new ≡ buffer (codecs.drop_answer items.old.items) items.old.capacity }
{
    let mut dropped = false;
    for _turn in 0..items.len() {
        if let Some(item) = items.pop_front() {
            if is_first_answer(item, dropped) {
                dropped = true;
            } else {
                items.push_back(item);
            }
        }
    }
}

/// Whether the item is an answer to a command and none was dropped before.
fn is_first_answer(item: Waiting, dropped: bool) -> bool
    ensures { result ≡ (not dropped && codecs.is_answer item) }
{
    !dropped && matches!(item, Waiting::Answer(_))
}
