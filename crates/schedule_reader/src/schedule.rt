//! What a schedule says.

use hda_items::Items;
use world_steps::Step;

/// A schedule: its parts, one after another.
#[derive(Debug, Drop)]
pub struct Schedule {
    /// The parts: each `repeat`, and each longest stretch of lines outside that has an item.
    pub parts: Items<Part>,
}

/// A stretch of a schedule that is passed so many times.
#[derive(Debug, Drop)]
pub struct Part {
    /// How often, 1 to 1,000,000.
    pub times: u32,
    /// What comes each time.
    pub items: Items<Item>,
}

/// What one line says.
#[derive(Debug, Drop)]
pub enum Item {
    /// The device takes a step.
    Device(Step),
    /// The driver runs.
    Drive(DriverLine),
}

/// A run of the driver.
#[derive(Debug, Drop)]
pub struct DriverLine {
    /// Whether the driver looks for an interrupt first.
    pub irq: bool,
    /// The most bytes that it may write.
    pub budget: u32,
    /// The steps of the device between its accesses: one group in front of each access.
    pub groups: Items<Group>,
}

/// Steps of the device, one after another.
#[derive(Debug, Drop)]
pub struct Group {
    /// The steps, which may be none.
    pub steps: Items<Step>,
}
