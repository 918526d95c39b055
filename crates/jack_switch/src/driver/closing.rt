//! How a driver that switches is closed.
ghost use Rattle.std.specs.Prelude.{◌≡◌, ◌≤◌, ◌+◌};
ghost use Rattle.period_writer.specs.Writers.{ring_size};
ghost use Rattle.audio_driver.specs.declared.room.TheConstants.{ROOM_ACCESSES, ROOM_BYTES};
ghost use Rattle.jack_switch.specs.declared.room.TheConstants.{SWITCH_BYTES, SWITCH_END_ACCESSES};
ghost use Rattle.jack_switch.specs.JackClosing as spec;

use super::JackDriver;
use super::opening::give_back;
use super::turns::{end_sound, given_after, phase_of};
use audio_driver::Closed;
use dma_pool::Pool;
use driver_progress::shut;
use hda_platform::Platform;
use period_writer::Records;

impl JackDriver {
    /// The last call: while the stream plays it looks once more for what codecs sent, makes one more run, which writes
    /// no sound, and stops the stream; where that look finds that the outstanding command was not answered in its time,
    /// it stops the stream without that run. Then both rings are stopped, and the controller is left in reset. All
    /// blocks go back to the pool. It takes no memory.
    pub fn close<P: Platform>(self, platform: &mut P) -> Closed
        requires room { ROOM_ACCESSES ≤ P.spare_accesses platform.old }
        requires bytes_room { ring_size self.writer + ROOM_BYTES ≤ P.spare_bytes platform.old }
        ensures closes { spec.ClosesSwitching self result (P.told platform.old) (P.told platform.new) }
        ensures gives { spec.GivesSwitchingBack self result.pool }
        ensures fixed { P.fixed platform.new ≡ P.fixed platform.old }
        ensures accesses { P.spare_accesses platform.old ≤ P.spare_accesses platform.new + SWITCH_END_ACCESSES }
        ensures bytes { P.spare_bytes platform.old ≤ P.spare_bytes
            platform.new + (ring_size self.writer + SWITCH_BYTES) }
    {
        let on = self.is_on();
        let JackDriver {
            mut engine,
            mut writer,
            mut supply,
            mut pool,
            graphs,
            plans,
            sent,
            mut jacks,
            mut switching,
            clock,
            given_up,
            runs: _,
            calls: _,
        } = self;
        let gave = end_sound(
            platform,
            &mut engine,
            &mut jacks,
            &mut switching,
            &mut writer,
            &mut supply,
            on,
            clock,
        );
        shut(platform);
        let phase = phase_of(&engine, &writer, given_after(gave, clock, given_up));
        let Records { runs, silences } = give_back(&mut pool, engine, writer);
        Closed {
            phase,
            graphs,
            plans,
            runs,
            silences,
            jacks: jacks.into_list(),
            sent,
            pool,
        }
    }

    /// Lets it go without a call more, and all blocks go back to the pool. The controller stays as it is: it may go on
    /// to read and write these blocks, so the pool is of use again only once the controller was reset or its engines
    /// were stopped by other means (HDA 1.0a, 3.3.7). It is for where no call can be made any more.
    pub fn abandon(self) -> Pool
        ensures gives { spec.GivesSwitchingBack self result }
    {
        let JackDriver {
            engine,
            writer,
            supply: _,
            mut pool,
            graphs: _,
            plans: _,
            sent: _,
            jacks: _,
            switching: _,
            clock: _,
            given_up: _,
            runs: _,
            calls: _,
        } = self;
        let Records {
            runs: _,
            silences: _,
        } = give_back(&mut pool, engine, writer);
        pool
    }
}
