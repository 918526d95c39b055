//! The device model for C: `hda_model` behind a place that C holds. c/hda_model.h declares these functions; c/hda.h is
//! the library for drivers and emulators over them. A place is given to one call at a time. A parameter `Global` has no
//! bytes, and C passes none.
#![tactic(auto)]

ghost use Rattle.std.specs.Prelude.{◌≡◌, ◌≢◌, ◌<◌, ◌==◌, None, IfSome, IfOk, IfErr, OnErr};
ghost use Rattle.std.specs.Prelude.{is_some, length, map, drop, get_or};
ghost use Rattle.heard_lists.specs.declared.pin_list.PinHeard.{PinHeard};
ghost use Rattle.hda_model.specs.Refusals as refusals;
ghost use Rattle.hda_model.specs.Models as models;
ghost use Rattle.hda_model.specs.Copies as copies;
ghost use Rattle.hda_c.specs.Numbers as numbers;
ghost use Rattle.hda_c.specs.Calls as calls;

mod handle;
mod loose;
mod numbers;
mod slot;
mod words;

pub use handle::Handle;
use hda_model::{DeviceModel, FileFault, HeardItem, OpenFault, PinName, copy_marks};
use numbers::{CLOSED, DONE, NO_MEMORY, NO_SUCH, REFUSED, status_of, step_of, width_of};
pub use slot::Slot;
use std::alloc::{AllocError, Global};
use words::tell;

/// Opens the device that the text of a codec file describes, in the place of any that is there. DONE, REFUSED, or
/// NO_MEMORY. Where it is refused `fault` begins with the fault's words, as many bytes as fit, and `told` is how many
/// they are; else that is 0.
#[unsafe(no_mangle)]
pub extern "C" fn hda_model_open(
    alloc: Global,
    slot: &mut Slot,
    text: &[u8],
    fault: &mut [u8],
    told: &mut usize,
) -> u8
    ensures status { calls.IsOpenStatus result }
    ensures made { is_some slot.new.held.device ≡ (result == DONE) }
    ensures device { IfSome slot.new.held.device (models.IsDescribed text.now) }
    ensures refused { result ≡ REFUSED → calls.IsTold text.now fault.old fault.new told.new }
    ensures unwritten { result ≢ REFUSED → fault.new ≡ fault.old }
    ensures untold { result ≢ REFUSED → told.new ≡ 0 }
{
    let _ = slot.take(alloc);
    *told = 0;
    match open(alloc, text) {
        Ok(device) => {
            slot.put(device);
            DONE
        }
        Err(OpenFault::File(FileFault::OutOfMemory)) => NO_MEMORY,
        Err(why) => match tell(alloc, why, fault) {
            Ok(length) => {
                *told = length;
                REFUSED
            }
            Err(_) => NO_MEMORY,
        },
    }
}

/// The device of a text, on the heap.
fn open(alloc: Global, text: &[u8]) -> Result<Box<DeviceModel, Global>, OpenFault>
    ensures opened { IfOk result (λ device. models.IsDescribed text.now device.value) }
    ensures refused { IfErr result (refusals.IsRefused text.now) }
{
    let device = DeviceModel::open(alloc, text)?;
    Ok(Box::new(alloc, device)?)
}

/// Frees the device model, if there is one.
#[unsafe(no_mangle)]
pub extern "C" fn hda_model_close(alloc: Global, slot: &mut Slot)
    ensures { slot.new.held.device ≡ None }
{
    let _ = slot.take(alloc);
}

/// Reads 1, 2 or 4 bytes of the registers (HDA 1.0a, 3.3). NO_SUCH for another width, or CLOSED; then the value is 0.
#[unsafe(no_mangle)]
pub extern "C" fn hda_model_read(
    alloc: Global,
    slot: &mut Slot,
    at: u16,
    bytes: u8,
    value: &mut u32,
) -> u8
    ensures status { result ≡ calls.access_status slot.old.held.device (numbers.width_of bytes) }
    ensures value { value.new ≡ calls.read_of slot.old.held.device at (numbers.width_of bytes) }
    ensures kept { slot.new.held.device ≡ slot.old.held.device }
{
    *value = 0;
    let Some(device) = slot.take(alloc) else {
        return CLOSED;
    };
    let status = match width_of(bytes) {
        Some(width) => {
            *value = device.read(at, width);
            DONE
        }
        None => NO_SUCH,
    };
    slot.put(device);
    status
}

/// Writes 1, 2 or 4 bytes of the registers (HDA 1.0a, 3.3). NO_SUCH for another width, or CLOSED; then nothing changes.
#[unsafe(no_mangle)]
pub extern "C" fn hda_model_write(
    alloc: Global,
    slot: &mut Slot,
    at: u16,
    bytes: u8,
    value: u32,
) -> u8
    ensures status { result ≡ calls.access_status slot.old.held.device (numbers.width_of bytes) }
    ensures written { calls.AreBoth (calls.IsWrittenBy at (numbers.width_of bytes) value)
        slot.old.held.device slot.new.held.device }
{
    let Some(mut device) = slot.take(alloc) else {
        return CLOSED;
    };
    let status = match width_of(bytes) {
        Some(width) => {
            device.write(at, width, value);
            DONE
        }
        None => NO_SUCH,
    };
    slot.put(device);
    status
}

/// Whether the interrupt line is high (HDA 1.0a, 3.3.14 and 3.3.15): 1 or 0. CLOSED, and 0, where there is no device
/// model.
#[unsafe(no_mangle)]
pub extern "C" fn hda_model_line(alloc: Global, slot: &mut Slot, high: &mut u32) -> u8
    ensures status { result ≡ calls.open_status slot.old.held.device }
    ensures high { high.new ≡ calls.line_in slot.old.held.device }
    ensures kept { slot.new.held.device ≡ slot.old.held.device }
{
    *high = 0;
    let Some(device) = slot.take(alloc) else {
        return CLOSED;
    };
    *high = u32::from(device.line());
    slot.put(device);
    DONE
}

/// Makes a step of the device with its memory: of a kind of the table, with the address of a codec or the number of a
/// stream as `part`, a node identifier, and how many bytes or link frames. NO_SUCH where there is no such kind, codec
/// or stream or a fetch has more than 65,535 bytes, NO_MEMORY, or CLOSED; then nothing changes.
#[unsafe(no_mangle)]
pub extern "C" fn hda_model_step(
    alloc: Global,
    slot: &mut Slot,
    memory: &mut [u8],
    kind: u8,
    part: u8,
    node: u8,
    count: u32,
) -> u8
    ensures status { calls.IsStepStatus (numbers.step_of kind part node count) slot.old.held.device result }
    ensures made { result ≡ DONE
        → calls.AreBoth (calls.IsSteppedBy (numbers.step_of kind part node count) memory.old memory.new)
        slot.old.held.device slot.new.held.device }
    ensures kept { result ≢ DONE → slot.new.held.device ≡ slot.old.held.device }
    ensures memory { result ≢ DONE → memory.new ≡ memory.old }
{
    let Some(mut device) = slot.take(alloc) else {
        return CLOSED;
    };
    let status = match step_of(kind, part, node, count) {
        Some(step) => status_of(device.step(memory, &step)),
        None => NO_SUCH,
    };
    slot.put(device);
    status
}

/// Gives all input pins this sound. NO_MEMORY, or CLOSED; then nothing changes.
#[unsafe(no_mangle)]
pub extern "C" fn hda_model_give(alloc: Global, slot: &mut Slot, sound: &[u8]) -> u8
    ensures status { calls.IsGiveStatus sound.now slot.old.held.device result }
    ensures given { result ≡ DONE
        → calls.AreBoth (models.IsGiven sound.now) slot.old.held.device slot.new.held.device }
    ensures kept { result ≢ DONE → slot.new.held.device ≡ slot.old.held.device }
{
    let Some(mut device) = slot.take(alloc) else {
        return CLOSED;
    };
    let status = match copy_of(alloc, sound) {
        Ok(copy) => {
            device.give(copy);
            DONE
        }
        Err(_) => NO_MEMORY,
    };
    slot.put(device);
    status
}

/// The same bytes.
///
/// # Errors
/// Want of memory, where there are some.
fn copy_of(alloc: Global, sound: &[u8]) -> Result<Vec<u8>, AllocError>
    ensures copy { IfOk result (λ copy. copy.items ≡ sound.now) }
    ensures some { OnErr result (0 < length sound.now) }
{
    let mut copy = Vec::new(alloc);
    copy.extend_from_slice(sound)?;
    Ok(copy)
}

/// How many blocks came to the input stream since its RUN rose. CLOSED, and 0, where there is no device model.
#[unsafe(no_mangle)]
pub extern "C" fn hda_model_taken_count(alloc: Global, slot: &mut Slot, count: &mut u64) -> u8
    ensures status { result ≡ calls.open_status slot.old.held.device }
    ensures count { count.new ≡ calls.taken_count slot.old.held.device }
    ensures kept { slot.new.held.device ≡ slot.old.held.device }
{
    *count = 0;
    let Some(device) = slot.take(alloc) else {
        return CLOSED;
    };
    *count = device.taken().len() as u64;
    slot.put(device);
    DONE
}

/// Copies the marks of the blocks that came since RUN rose, from a number on, counted from 0, as many as fit: 1 where
/// the block was taken, 0 where it was dropped. CLOSED where there is no device model; then nothing is copied.
#[unsafe(no_mangle)]
pub extern "C" fn hda_model_copy_taken(
    alloc: Global,
    slot: &mut Slot,
    from: u64,
    into: &mut [u8],
) -> u8
    ensures status { result ≡ calls.open_status slot.old.held.device }
    ensures marks { IfSome slot.old.held.device
        (λ d. into.new ≡ copies.copied (map copies.mark_of (drop from d.came)) into.old) }
    ensures none { slot.old.held.device ≡ None → into.new ≡ into.old }
    ensures kept { slot.new.held.device ≡ slot.old.held.device }
{
    let Some(device) = slot.take(alloc) else {
        return CLOSED;
    };
    copy_marks(device.taken(), from, into);
    slot.put(device);
    DONE
}

/// What the candidate pin of the codec with this address heard that was not forgotten: `count` is how many items, and
/// those from a number on, counted from 0, are copied into `into`, as many as fit. NO_SUCH where there is no such pin,
/// or CLOSED; then the count is 0.
#[unsafe(no_mangle)]
pub extern "C" fn hda_model_heard(
    alloc: Global,
    slot: &mut Slot,
    codec: u8,
    nid: u8,
    from: u64,
    into: &mut [HeardItem],
    count: &mut u64,
) -> u8
    ensures status { result ≡ calls.heard_status codec nid slot.old.held.device }
    ensures count { count.new ≡ calls.count_in codec nid slot.old.held.device }
    ensures items { IfSome slot.old.held.device
        (λ d. into.new ≡ copies.copied (map copies.item_of (drop from (copies.list_of codec nid d.pins))) into.old) }
    ensures none { slot.old.held.device ≡ None → into.new ≡ into.old }
    ensures kept { slot.new.held.device ≡ slot.old.held.device }
{
    *count = 0;
    let Some(device) = slot.take(alloc) else {
        return CLOSED;
    };
    let status = match device.heard(codec, nid, from, into) {
        Some(items) => {
            *count = items;
            DONE
        }
        None => NO_SUCH,
    };
    slot.put(device);
    status
}

/// Forgets what the pins heard so far. CLOSED where there is no device model.
#[unsafe(no_mangle)]
pub extern "C" fn hda_model_forget(alloc: Global, slot: &mut Slot) -> u8
    ensures status { result ≡ calls.open_status slot.old.held.device }
    ensures forgotten { calls.AreBoth models.IsForgotten slot.old.held.device slot.new.held.device }
{
    let Some(mut device) = slot.take(alloc) else {
        return CLOSED;
    };
    device.forget();
    slot.put(device);
    DONE
}

/// Whether a codec has this address. DONE where one has, NO_SUCH where none has, or CLOSED.
#[unsafe(no_mangle)]
pub extern "C" fn hda_model_codec(alloc: Global, slot: &mut Slot, address: u8) -> u8
    ensures status { result ≡ calls.codec_status address slot.old.held.device }
    ensures kept { slot.new.held.device ≡ slot.old.held.device }
{
    let Some(device) = slot.take(alloc) else {
        return CLOSED;
    };
    let status = if device.has_codec(address) {
        DONE
    } else {
        NO_SUCH
    };
    slot.put(device);
    status
}

/// The name of the candidate pin at a place, counted from 0. NO_SUCH where there are no more, or CLOSED; then the name
/// stays.
#[unsafe(no_mangle)]
pub extern "C" fn hda_model_pin_at(
    alloc: Global,
    slot: &mut Slot,
    place: usize,
    name: &mut PinName,
) -> u8
    ensures status { result ≡ calls.pin_status place slot.old.held.device }
    ensures name { IfSome slot.old.held.device
        (λ d. (pin : PinHeard) → place < length d.pins → name.new ≡ models.name_of (get_or d.pins place pin)) }
    ensures none { result ≢ DONE → name.new ≡ name.old }
    ensures kept { slot.new.held.device ≡ slot.old.held.device }
{
    let Some(device) = slot.take(alloc) else {
        return CLOSED;
    };
    let status = match device.pin(place) {
        Some(found) => {
            *name = found;
            DONE
        }
        None => NO_SUCH,
    };
    slot.put(device);
    status
}
