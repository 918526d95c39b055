//! What C holds: a handle, and whether it is open.
ghost use Rattle.std.specs.Prelude.{◌≡◌, IfSome, None, Some, is_some};

use crate::handle::Handle;
use hda_model::DeviceModel;
use std::alloc::Global;

/// A place for a device model, which is open or holds none. Sixteen bytes that are 0 hold none.
#[repr(C)]
#[derive(Drop)]
pub struct Slot {
    is_open: bool,
    pub(crate) held: Handle,
    pub ghost tied: { is_some held.device ≡ is_open },
}

impl Slot {
    ghost use Rattle.std.specs.Prelude.{◌≡◌, IfSome, None, Some, is_some};

    /// Takes the device model out.
    pub(crate) fn take(&mut self, alloc: Global) -> Option<Box<DeviceModel, Global>>
        ensures some { is_some result ≡ is_some self.old.held.device }
        ensures value { IfSome result (λ d. Some d.value ≡ self.old.held.device) }
        ensures left { self.new.held.device ≡ None }
    {
        if !self.is_open {
            return None;
        }
        let device = self.held.take(alloc);
        self.is_open = false;
        Some(device)
    }

    /// Puts a device model in.
    pub(crate) fn put(&mut self, device: Box<DeviceModel, Global>)
        requires { self.old.held.device ≡ None }
        ensures { self.new.held.device ≡ Some device.value }
    {
        self.held.put(device);
        self.is_open = true;
    }
}
