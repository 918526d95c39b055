//! The words of the command line, and what they ask for.
use program_words::{Request, read_words};
use std::alloc::{AllocError, Global};
use test_cases::text_of;

/// What a request asks for.
fn request_text(alloc: Global, request: &Request<'_>) -> Result<String, AllocError> {
    match request {
        Request::Route { codec, format } => format!(in alloc; "route {codec:?} {format:?}"),
        Request::Walk { codec, schedule } => format!(in alloc; "walk {codec:?} {schedule:?}"),
        Request::Play {
            codec,
            wav,
            schedule,
            periods,
            period,
        } => {
            format!(in alloc;
                "play {codec:?} {wav:?} {schedule:?} periods {periods} period {period}"
            )
        }
        Request::Make { number } => format!(in alloc; "make {number}"),
        Request::Spdif {
            codec,
            wav,
            schedule,
            periods,
            period,
        } => {
            format!(in alloc;
                "spdif {codec:?} {wav:?} {schedule:?} periods {periods} period {period}"
            )
        }
        Request::Capture {
            codec,
            wav,
            schedule,
            periods,
            period,
        } => {
            format!(in alloc;
                "capture {codec:?} {wav:?} {schedule:?} periods {periods} period {period}"
            )
        }
    }
}

/// What these words ask for, or why they ask for nothing.
pub fn tell(alloc: Global, words: &[Vec<u8>]) -> Result<String, AllocError> {
    let mut given = Vec::new(alloc);
    for word in words {
        given.push(String::from_str(alloc, text_of(word))?)?;
    }
    match read_words(alloc, given.as_slice()) {
        Ok(request) => request_text(alloc, &request),
        Err(fault) => format!(in alloc; "{fault:?}"),
    }
}
