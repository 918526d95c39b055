//! The phases of a driver.

use codec_walk::WalkFault;

/// How far a driver has come. This project's own.
#[derive(Clone, Copy, Debug, PartialEq, Eq)]
pub enum Phase {
    /// Nothing was done yet.
    Reset,
    /// The controller was reset; its codecs announce themselves.
    Settling,
    /// The codecs are asked what they are.
    Walking,
    /// The codecs are set up.
    SettingUp,
    /// All codecs are set up.
    Ready,
    /// The stream runs.
    Playing,
    /// All sound was played, and the stream was stopped.
    Drained,
    /// No pin of any codec has a route.
    NothingRouted,
    /// A command was not answered in time.
    Unanswered {
        /// The address of the codec that was asked.
        codec: u8,
        /// The command's word.
        command: u32,
        /// The clock at which it was submitted, in ticks of 1/24,000,000 s.
        issued: u32,
        /// The clock at which that was noticed.
        noticed: u32,
    },
    /// A run ended too late, and the stream was stopped.
    Late {
        /// The clock from which the link frames count: the first one of the run before, or the late run's own where
        /// it took silence back and was too slow.
        from: u32,
        /// The clock that the late run read last.
        to: u32,
        /// How many link frames might pass between them.
        limit: u32,
    },
    /// A codec's answers are not those of a well-formed graph.
    Malformed {
        /// The address of the codec.
        codec: u8,
        /// What its words have wrong.
        fault: WalkFault,
    },
    /// Memory was wanting.
    Failed,
}

impl Phase {
    ghost use Rattle.std.specs.Prelude.{◌≡◌};
    ghost use Rattle.driver_progress.specs.Phases as spec;

    /// Whether commands are sent in it.
    pub fn is_asking(self) -> bool
        ensures { result ≡ spec.is_asking self }
    {
        matches!(self, Phase::Walking | Phase::SettingUp)
    }

    /// Whether anything is left to do in it.
    pub fn is_active(self) -> bool
        ensures { result ≡ spec.is_active self }
    {
        matches!(
            self,
            Phase::Reset
                | Phase::Settling
                | Phase::Walking
                | Phase::SettingUp
                | Phase::Ready
                | Phase::Playing
        )
    }

    /// Whether nothing was done yet.
    pub fn is_reset(self) -> bool
        ensures { result ≡ spec.is_reset self }
    {
        matches!(self, Phase::Reset)
    }

    /// Whether all codecs are set up, and no sound was played yet.
    pub fn is_ready(self) -> bool
        ensures { result ≡ spec.is_ready self }
    {
        matches!(self, Phase::Ready)
    }

    /// Whether an answer that led to it leads on.
    pub fn goes_on(self) -> bool
        ensures { result ≡ spec.goes_on self }
    {
        matches!(self, Phase::Walking | Phase::SettingUp | Phase::Ready)
    }

    /// Whether sound may be played at the next call.
    pub fn may_play(self) -> bool
        ensures { result ≡ spec.may_play self }
    {
        matches!(self, Phase::Ready | Phase::Playing)
    }
}
