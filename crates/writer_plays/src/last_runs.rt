//! The last run, which stops the stream whatever it finds.
ghost use Rattle.std.specs.Prelude.{◌≡◌, false};
ghost use Rattle.period_writer.specs.Writers.{KeepsRing};

use crate::play::{Played, Script, answers_of, nothing, record, start, supply_of};
use crate::scripted::Scripted;
use dma_pool::Pool;
use period_writer::{Geometry, Ran, Writer};
use std::alloc::{AllocError, Global};
use wav_reader::Supply;

/// The last run, with the room that it asks for and no more, where the stream plays and there is room to record it.
fn finish(
    platform: &mut Scripted,
    writer: &mut Writer,
    supply: &mut Supply,
    geometry: &Geometry,
) -> Option<Ran>
    requires geometry { writer.old.geometry ≡ geometry.now }
    ensures keeps { KeepsRing writer.old writer.new }
{
    let course = writer.course();
    if course.started && course.ran == Ran::Playing && writer.has_free_record() {
        platform.make_room(
            6 + usize::from(geometry.periods()),
            geometry.ring() as usize,
        );
        return Some(writer.finish(platform, supply));
    }
    None
}

/// The first run of a script, and the last one.
fn finish_all(
    platform: &mut Scripted,
    writer: &mut Writer,
    supply: &mut Supply,
    geometry: &Geometry,
    script: &Script,
    played: &mut Played,
) -> Result<(), AllocError>
    requires fresh { writer.old.course.started ≡ false }
    requires geometry { writer.old.geometry ≡ geometry.now }
    ensures keeps { KeepsRing writer.old writer.new }
{
    let (_, _, budget) = script.first;
    start(platform, writer, supply, geometry, budget);
    if let Some(ran) = finish(platform, writer, supply, geometry) {
        played.rans.push(ran)?;
    }
    record(platform, writer, played)
}

/// Plays the first run of a script over a ring, and then the last one, whose reads are those of its turn, unless a run
/// or memory is wanting.
pub fn finish_over(alloc: Global, geometry: Geometry, script: &Script) -> Option<Played> {
    let mut pool = Pool::new(alloc, 64).ok()?;
    let mut supply = supply_of(alloc, script.frames)?;
    let answers = answers_of(alloc, script).ok()?;
    let mut platform = Scripted::new(alloc, answers, script.otherwise, true).ok()?;
    let mut played = nothing(alloc);
    let Ok(mut writer) = Writer::open(alloc, &mut pool, geometry, 8) else {
        return None;
    };
    let outcome = finish_all(
        &mut platform,
        &mut writer,
        &mut supply,
        &geometry,
        script,
        &mut played,
    );
    writer.close(&mut pool);
    outcome.ok()?;
    played.left = supply.left();
    played.rest = (platform.answers_left(), pool.free());
    Some(played)
}
