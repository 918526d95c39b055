//! The driver of a capture.
ghost use Rattle.std.specs.Prelude.{◌≡◌, IfOk};

use analog_in::Input;
use audio_driver::Driver;
use recording_driver::RecordingDriver;
use std::alloc::{AllocError, Global};

/// The driver of a capture: until its codecs are set up one that plays nothing, and from the next line on one that
/// records. Each lies in memory of its own, so that from line to line little is handed on.
pub(crate) enum Capturer {
    /// It brings its codecs up.
    Coming(Box<Driver<Input>>),
    /// It records.
    Recording(Box<RecordingDriver>),
}

impl Capturer {
    /// Lets it go without a call more.
    pub(crate) fn abandon(self) {
        match self {
            Capturer::Coming(driver) => {
                let _ = Box::into_inner(driver).abandon();
            }
            Capturer::Recording(driver) => {
                let _ = Box::into_inner(driver).abandon();
            }
        }
    }
}

/// Puts a driver that brings its codecs up into memory of its own.
///
/// # Errors
/// Want of memory: the driver is let go.
pub(crate) fn boxed_coming(
    alloc: Global,
    driver: Driver<Input>,
) -> Result<Box<Driver<Input>>, AllocError>
    ensures { IfOk result (λ boxed. boxed.value ≡ driver) }
{
    match Box::new(alloc, driver) {
        Ok(boxed) => Ok(boxed),
        Err(failed) => {
            let _ = failed.value.abandon();
            Err(AllocError)
        }
    }
}

/// Puts a driver that records into memory of its own.
///
/// # Errors
/// Want of memory: the driver is let go.
pub(crate) fn boxed_recording(
    alloc: Global,
    driver: RecordingDriver,
) -> Result<Box<RecordingDriver>, AllocError>
    ensures { IfOk result (λ boxed. boxed.value ≡ driver) }
{
    match Box::new(alloc, driver) {
        Ok(boxed) => Ok(boxed),
        Err(failed) => {
            let _ = failed.value.abandon();
            Err(AllocError)
        }
    }
}
