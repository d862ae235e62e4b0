/// What stands in a unit: a retired instruction whose writes are outstanding.
#[derive(Clone, Copy, Debug, PartialEq, Eq)]
pub struct Entry {
    /// The count of fetches before its own.
    pub serial: u32,
    /// The number of its unit.
    pub unit: u8,
    /// Where it stands in its behaviour's plan: past the last stage, up to the unit's last time.
    pub time: u8,
}
