//! What C holds of a device model.
ghost use Rattle.std.specs.Prelude.{◌≡◌, Option, None, Some, IsSome};
ghost use Rattle.hda_model.specs.Models.{ModelState};

use crate::loose::Loose;
use hda_model::DeviceModel;
use std::alloc::Global;
use std::marker::Model;

/// A pointer to a device model that it owns, or no pointer.
#[repr(C)]
#[derive(Drop)]
pub struct Handle {
    at: *mut (),
    alloc: Global,
    pub ghost device: { Option ModelState },
}

impl Model for Handle {
    ghost use Rattle.hda_c.specs.Held.{held};
    ghost use Rattle.hda_model.specs.contracts.model.DeviceModel.{the_row as device_row};

    ghost also_owns = { λ h. held device_row h.alloc h.at h.device };
}

impl Handle {
    /// No device model.
    pub(crate) fn empty(alloc: Global) -> Handle
        ensures { result.device ≡ None }
    {
        Handle {
            at: std::ptr::null_mut(),
            alloc,
        }
    }

    /// A device model.
    pub(crate) fn of(l: Loose<DeviceModel, Global>) -> Handle
        ensures { result.device ≡ Some l.value }
    {
        let Loose { at, alloc } = l;
        Handle {
            at: at as *mut (),
            alloc,
        }
    }

    /// The device model.
    pub(crate) fn into_loose(self) -> Loose<DeviceModel, Global>
        requires { IsSome self.device }
        ensures { Some result.value ≡ self.device }
    {
        let Handle { at, alloc } = self;
        Loose {
            at: at as *mut DeviceModel,
            alloc,
        }
    }

    /// Takes the device model out.
    pub(crate) fn take(&mut self, alloc: Global) -> Box<DeviceModel, Global>
        requires { IsSome self.old.device }
        ensures taken { Some result.value ≡ self.old.device }
        ensures left { self.new.device ≡ None }
    {
        std::mem::replace(self, Handle::empty(alloc))
            .into_loose()
            .into_box()
    }

    /// Puts a device model in.
    pub(crate) fn put(&mut self, device: Box<DeviceModel, Global>)
        requires { self.old.device ≡ None }
        ensures { self.new.device ≡ Some device.value }
    {
        *self = Handle::of(Loose::of(device));
    }
}
