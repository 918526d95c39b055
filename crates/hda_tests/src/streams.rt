//! What a supply of sound gives out, of a file that was read whole, and of one that is read while it is taken, also where
//! the shelf fails or the file gets shorter.
use hda_outside::{Cut, MemShelf, SureShelf};
use std::alloc::{AllocError, Global};
use std::process::Abort;
use std::test::Fail;
use wav_reader::{Supply, Wav, open_wav, read_wav};

/// The beginning of a WAV file.
const RIFF: &[u8] = b"RIFF\x2c\0\0\0WAVE";
/// A chunk `fmt `: 48 kHz, 16 bits, 2 channels.
const STEREO: &[u8] = b"fmt \x10\0\0\0\x01\0\x02\0\x80\xbb\0\0\0\xee\x02\0\x04\0\x10\0";
/// A chunk `fmt `: 48 kHz, 16 bits, 1 channel.
const MONO: &[u8] = b"fmt \x10\0\0\0\x01\0\x01\0\x80\xbb\0\0\0\x77\x01\0\x02\0\x10\0";
/// A chunk `fmt `: 48 kHz, 16 bits, 4 channels.
const FOUR: &[u8] = b"fmt \x10\0\0\0\x01\0\x04\0\x80\xbb\0\0\0\xdc\x05\0\x08\0\x10\0";
/// A chunk `fmt `: 48 kHz, 24 bits, 2 channels.
const STEREO_24: &[u8] = b"fmt \x10\0\0\0\x01\0\x02\0\x80\xbb\0\0\0\x65\x04\0\x06\0\x18\0";
/// A chunk `fmt `: 48 kHz, 24 bits, 1 channel.
const MONO_24: &[u8] = b"fmt \x10\0\0\0\x01\0\x01\0\x80\xbb\0\0\x80\x32\x02\0\x03\0\x18\0";
/// A chunk `fmt `: 48 kHz, 32 bits, 8 channels.
const EIGHT_32: &[u8] = b"fmt \x10\0\0\0\x01\0\x08\0\x80\xbb\0\0\0\x70\x17\0\x20\0\x20\0";
/// A chunk `fmt `: 48 kHz, 32 bits, 1 channel.
const MONO_32: &[u8] = b"fmt \x10\0\0\0\x01\0\x01\0\x80\xbb\0\0\0\xee\x02\0\x04\0\x20\0";

/// One file, as a shelf takes it.
fn named(alloc: Global, bytes: Vec<u8>) -> Result<Vec<(String, Vec<u8>)>, AllocError> {
    let mut files = Vec::new(alloc);
    files.push((String::from_str(alloc, "file")?, bytes))?;
    Ok(files)
}

/// A file of so many bytes of sound, by its chunk `fmt `.
fn sound_file(alloc: Global, format: &[u8], len: u32) -> Result<Vec<u8>, AllocError> {
    let mut bytes = Vec::new(alloc);
    for part in [RIFF, format, b"data"] {
        bytes.extend_from_slice(part)?;
    }
    bytes.extend_from_slice(&len.to_le_bytes())?;
    for at in 0..len {
        bytes.push((at % 251) as u8)?;
    }
    Ok(bytes)
}

/// A file of so many bytes of sound, what it means as it is read whole, and a supply of it that holds at most so many
/// bytes.
fn sound_of(
    rt: &impl Abort,
    alloc: Global,
    (format, len): (&[u8], u32),
    ring: u32,
) -> Result<(Vec<u8>, Wav, Supply), Fail> {
    let file = sound_file(alloc, format, len)?;
    let whole = read_wav(alloc, &file)?;
    let mut shelf = SureShelf::new(named(alloc, file.clone()?)?);
    let Ok(head) = open_wav(alloc, &mut shelf, "file") else {
        return Err(Fail::from("not opened"));
    };
    let block = head.format.block_bytes();
    assert!(rt; ring != 0 && block != 0);
    assert!(rt; ring % block == 0);
    let supply = Supply::stream(alloc, head, "file", ring)?;
    Ok((file, whole, supply))
}

/// Takes what is held of a supply, at most so many bytes, and puts them last.
fn take_some(supply: &mut Supply, most: usize, all: &mut Vec<u8>) -> Result<(), AllocError> {
    let alloc = *all.allocator();
    let count = (supply.held() as usize).min(most);
    let mut some = vec![in alloc; 0; count]?;
    supply.take(&mut some);
    all.extend_from_slice(&some)
}

/// How many bytes are taken at a time: whole blocks, parts of them, and none.
const TAKES: [usize; 5] = [3, 1, 0, 8, 100_000];

/// Fails the test unless a supply gives out all of a sound, where it is filled before each time that some is taken.
fn expect_all(
    rt: &impl Abort,
    alloc: Global,
    supply: &mut Supply,
    file: Vec<u8>,
    ring: u32,
) -> Result<Vec<u8>, AllocError> {
    let mut shelf = SureShelf::new(named(alloc, file)?);
    let mut all = Vec::new(alloc);
    for turn in 0..20_000usize {
        if supply.left() == 0 {
            break;
        }
        assert!(rt; supply.fill(alloc, &mut shelf) == Ok(()));
        assert!(rt; supply.held() == supply.left().min(u64::from(ring)));
        take_some(supply, TAKES[turn % 5], &mut all)?;
    }
    assert!(rt; supply.fill(alloc, &mut shelf) == Ok(()));
    assert!(rt; supply.held() == 0 && supply.left() == 0);
    Ok(all)
}

/// The chunk `fmt ` of a file, and the bytes that a supply of it holds at most.
const RINGS: [(&[u8], u32); 14] = [
    (STEREO, 4),
    (STEREO, 768),
    (STEREO, 100_000),
    (MONO, 16),
    (MONO, 12_288),
    (MONO, 100_000),
    (FOUR, 768),
    (STEREO_24, 8),
    (STEREO_24, 12_288),
    (MONO_24, 768),
    (MONO_24, 100_000),
    (EIGHT_32, 32),
    (EIGHT_32, 12_288),
    (MONO_32, 768),
];

#[test]
fn streams_what_it_reads(rt: HostRuntime) -> Result<(), Fail> {
    let alloc = rt.alloc();
    for (format, ring) in RINGS {
        // longer than a piece of 4,096 bytes, with bytes at the end that are no whole frame
        let (file, whole, mut supply) = sound_of(&rt, alloc, (format, 9_001), ring)?;
        let mut kept = Supply::whole(read_wav(alloc, &file)?);
        assert!(rt; kept.left() == whole.pcm.len() as u64 && supply.left() == kept.left());
        let all = expect_all(&rt, alloc, &mut kept, Vec::new(alloc), u32::MAX)?;
        assert!(rt; all.as_slice() == whole.pcm.as_slice());
        let all = expect_all(&rt, alloc, &mut supply, file, ring)?;
        assert!(rt; all.as_slice() == whole.pcm.as_slice());
        assert!(rt; supply.read() == all.len() as u64);
    }
    Ok(())
}

/// Fails the test unless a supply that was cut holds the front of a sound, of so many bytes, and gives no more than
/// that.
fn expect_front(
    rt: &impl Abort,
    alloc: Global,
    supply: &mut Supply,
    whole: &Wav,
    held: u64,
) -> Result<(), AllocError> {
    let mut shelf = SureShelf::new(Vec::new(alloc));
    assert!(rt; supply.fill(alloc, &mut shelf) == Ok(()));
    assert!(rt; supply.held() == held && supply.left() == held && supply.read() == held);
    let mut all = Vec::new(alloc);
    take_some(supply, usize::MAX, &mut all)?;
    assert!(rt; all.len() as u64 == held && supply.left() == 0);
    assert!(rt; whole.pcm.as_slice().starts_with(all.as_slice()));
    Ok(())
}

/// The chunk `fmt ` of a file of 9,000 bytes of sound, the call that fails, of those that each ask for a piece of 4,096
/// bytes or of as many whole samples, and the bytes of sound that are held then.
const FAILING_CALLS: [(&[u8], u64, u64); 10] = [
    (STEREO, 0, 0),
    (STEREO, 1, 4_096),
    (STEREO, 2, 8_192),
    (MONO, 0, 0),
    (MONO, 1, 8_192),
    (MONO, 2, 16_384),
    (STEREO_24, 1, 5_456),
    (STEREO_24, 2, 10_920),
    (MONO_24, 1, 10_920),
    (EIGHT_32, 1, 4_096),
];

#[test]
fn stops_reading_where_the_shelf_fails(rt: HostRuntime) -> Result<(), Fail> {
    let alloc = rt.alloc();
    for (format, call, held) in FAILING_CALLS {
        let (file, whole, mut supply) = sound_of(&rt, alloc, (format, 9_000), 100_000)?;
        let mut failing = MemShelf::new(named(alloc, file)?, vec![in alloc; call]?);
        assert!(rt; supply.fill(alloc, &mut failing) == Err(Cut::Failed));
        expect_front(&rt, alloc, &mut supply, &whole, held)?;
    }
    Ok(())
}

/// The chunk `fmt ` of a file of 84 bytes, how many of these are left when its sound is read, the place at which no
/// byte more is found, and the bytes of sound that are held then.
const FRONTS: [(&[u8], usize, u64, u64); 22] = [
    (STEREO, 0, 44, 0),
    (STEREO, 44, 44, 0),
    (STEREO, 45, 45, 0),
    (STEREO, 47, 47, 0),
    (STEREO, 48, 48, 4),
    (STEREO, 64, 64, 20),
    (STEREO, 80, 80, 36),
    (STEREO, 83, 83, 36),
    (MONO, 20, 44, 0),
    (MONO, 45, 45, 0),
    (MONO, 46, 46, 4),
    (MONO, 63, 63, 36),
    (MONO, 64, 64, 40),
    (MONO, 83, 83, 76),
    (STEREO_24, 49, 49, 0),
    (STEREO_24, 50, 50, 8),
    (STEREO_24, 79, 79, 40),
    (MONO_24, 46, 46, 0),
    (MONO_24, 82, 82, 96),
    (FOUR, 51, 51, 0),
    (EIGHT_32, 75, 75, 0),
    (MONO_32, 55, 55, 16),
];

#[test]
fn stops_reading_where_the_file_ends(rt: HostRuntime) -> Result<(), Fail> {
    let alloc = rt.alloc();
    for (format, len, place, held) in FRONTS {
        let (mut file, whole, mut supply) = sound_of(&rt, alloc, (format, 40), 960)?;
        file.truncate(len);
        let mut shorter = SureShelf::new(named(alloc, file)?);
        let got = supply.fill(alloc, &mut shorter);
        assert!(rt; got == Err(Cut::Short(place)));
        expect_front(&rt, alloc, &mut supply, &whole, held)?;
    }
    Ok(())
}

#[test]
fn reads_a_longer_file_as_it_was_measured(rt: HostRuntime) -> Result<(), Fail> {
    let alloc = rt.alloc();
    for format in [STEREO, MONO, STEREO_24, MONO_24] {
        let (mut file, whole, mut supply) = sound_of(&rt, alloc, (format, 40), 960)?;
        file.extend_from_slice(b"more of it")?;
        let all = expect_all(&rt, alloc, &mut supply, file, 960)?;
        assert!(rt; all.as_slice() == whole.pcm.as_slice());
    }
    Ok(())
}
