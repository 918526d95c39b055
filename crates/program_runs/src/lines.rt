//! How many driver lines a schedule has.
ghost use Rattle.std.specs.Prelude.{◌≡◌, length};
ghost use Rattle.schedule_reader.specs.Schedules.{IsLimited};
ghost use Rattle.program_runs.specs.Lines.{is_line, lines_in, lines_of};

use schedule_reader::{Item, Schedule};

/// Whether an item is a driver line.
fn is_line(item: &Item) -> bool
    ensures { result ≡ is_line item.now }
{
    matches!(item, Item::Drive(_))
}

/// How many driver lines stand among some items.
fn lines_among(items: &[Item]) -> usize
    ensures { result ≡ length (lines_in items.now) }
{
    let mut count = 0;
    for item in items {
        if is_line(item) {
            count += 1;
        }
    }
    count
}

/// How many driver lines a schedule has, with repeats written out.
pub fn line_count(schedule: &Schedule) -> u32
    requires { IsLimited schedule.now }
    ensures { result ≡ length (lines_of schedule.now) }
{
    let mut count = 0u64;
    for part in schedule.parts.as_slice() {
        count += u64::from(part.times) * lines_among(part.items.as_slice()) as u64;
    }
    count as u32
}
