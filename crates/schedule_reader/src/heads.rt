//! Reads what stands on a line before its first bar.
ghost use Rattle.std.specs.Prelude.{◌≡◌};
ghost use Rattle.schedule_reader.specs.Cuts as cuts;
ghost use Rattle.schedule_reader.specs.Heads.{head_of};
ghost use Rattle.schedule_reader.specs.Readers as readers;
ghost use Rattle.schedule_reader.specs.Left.{words_left};

use crate::cuts::Words;
use crate::keywords::{Keyword, keyword_of};
use crate::numbers::number;
use crate::steps::{is_done, one, step_with};
use world_steps::Step;

/// What stands before the first bar.
#[derive(Clone, Copy, Debug, PartialEq, Eq)]
pub(crate) enum Head {
    /// A step of the device.
    Device(Step),
    /// `run N` or, where the mark is set, `irq N`.
    Drive(bool, u32),
    /// `repeat K`
    Repeat(u32),
    /// `end`
    End,
}

/// A budget, alone.
fn only_budget(operands: Words) -> Option<u32>
    ensures { result ≡ readers.only_budget (words_left operands.entry) }
{
    let word = one(operands)?;
    number(word, 0, u32::MAX)
}

/// How often a repeat is passed, alone.
fn only_times(operands: Words) -> Option<u32>
    ensures { result ≡ readers.only_times (words_left operands.entry) }
{
    let word = one(operands)?;
    number(word, 1, 1_000_000)
}

/// The head that begins with this keyword and goes on with these words.
fn head_with(keyword: Keyword, operands: Words) -> Option<Head>
    ensures { result ≡ readers.head_with keyword (words_left operands.entry) }
{
    match keyword {
        Keyword::Run => {
            let budget = only_budget(operands)?;
            Some(Head::Drive(false, budget))
        }
        Keyword::Irq => {
            let budget = only_budget(operands)?;
            Some(Head::Drive(true, budget))
        }
        Keyword::Repeat => {
            let times = only_times(operands)?;
            Some(Head::Repeat(times))
        }
        Keyword::End => is_done(operands).then_some(Head::End),
        _ => {
            let step = step_with(keyword, operands)?;
            Some(Head::Device(step))
        }
    }
}

/// The head that the words that are left say.
#[tactic(auto, unfolding(crate::specs::Readers::head_of))]
fn read_head(mut words: Words) -> Option<Head>
    ensures { result ≡ readers.head_of (words_left words.entry) }
{
    let word = words.next()?;
    let first = keyword_of(word)?;
    head_with(first, words)
}

/// The head that a text says.
pub(crate) fn head_in(text: &[u8]) -> Option<Head>
    ensures { result ≡ head_of (cuts.words text.now) }
{
    read_head(Words::new(text))
}
