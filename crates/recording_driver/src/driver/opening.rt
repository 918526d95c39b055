//! How a driver that records is opened.
ghost use Rattle.std.specs.Prelude.{◌≡◌, ◌≤◌, ◌*◌, IfOk};
ghost use Rattle.stream_format.specs.Cadence.{block_bytes};
ghost use Rattle.wav_writer.specs.declared.file.TheConstants.{MOST_RING_BYTES};
ghost use Rattle.audio_driver.specs.Parting.{IsEngineIdle, HasItsBlocks};
ghost use Rattle.recording_driver.specs.RecordingDrivers.{OpensRecording, HasNoRecorderRing, HasRecorderRing};

use super::RecordingDriver;
use audio_driver::Parts;
use hda_capture::Recorder;
use hda_platform::OpenFault;
use period_writer::Geometry;
use std::alloc::Global;

impl RecordingDriver {
    /// Of the parts of a driver whose codecs are set up, one that records so many frames through a ring of the writer's
    /// geometry in so many calls, 1,000,000 at most. The blocks of the writer are given back, and then those of a
    /// recorder are taken. The sound that was to come and the count of jacks are dropped. No access is made.
    ///
    /// # Errors
    /// `NoRun` exactly where one of the takes of [`Recorder::open`], once the writer's blocks were given back, meets no
    /// run; `OutOfMemory` where each of them meets one. All blocks went back to the pool then, which is let go.
    pub fn open(
        alloc: Global,
        parts: Parts,
        geometry: Geometry,
        runs: u32,
        frames: u64,
    ) -> Result<RecordingDriver, OpenFault>
        requires geometry { geometry ≡ parts.writer.geometry }
        requires few { runs ≤ 1000000 }
        requires short { frames * block_bytes geometry.format ≤ MOST_RING_BYTES }
        requires idle { IsEngineIdle parts }
        requires blocks { HasItsBlocks parts }
        ensures opens { IfOk result (OpensRecording parts runs (frames * block_bytes geometry.format)) }
        ensures no_run { result ≡ Err OpenFault.NoRun → HasNoRecorderRing parts }
        ensures no_memory { result ≡ Err OpenFault.OutOfMemory → HasRecorderRing parts }
    {
        let Parts {
            engine,
            writer,
            supply: _,
            mut pool,
            graphs,
            plans,
            sent,
            jacks: _,
        } = parts;
        writer.close(&mut pool);
        match Recorder::open(alloc, &mut pool, geometry, runs + 1, frames) {
            Ok(recorder) => {
                // The pool's taken runs lie apart: so the ring lies beside RIRB.
                let _free = pool.free();
                Ok(RecordingDriver {
                    engine,
                    recorder,
                    pool,
                    graphs,
                    plans,
                    sent,
                    runs,
                    calls: 0,
                })
            }
            Err(fault) => {
                engine.close(&mut pool);
                Err(fault)
            }
        }
    }
}
