//! The exits of all switches for all targets.

use common_values::memory::OutOfMemory;
use fabric_engine_channels::channels::{Channel, Channels};
use fabric_engine_channels::ways::Ways;
use std::alloc::Global;

// What stands for no exit: no switch has so many channels.
const NO_EXIT: u8 = 255;

/// Rows of exits, one exit or none for each switch: a byte each, the index of the exit among the channels of the
/// switch.
#[derive(Drop)]
pub struct Rows {
    switches: u32,
    bytes: Vec<u8>,
}

impl Rows {
    /// Creates `rows` rows without exits.
    ///
    /// # Errors
    /// `OutOfMemory`.
    pub fn new(alloc: Global, rows: u32, switches: u32) -> Result<Rows, OutOfMemory> {
        let count = (rows as usize).saturating_mul(switches as usize);
        let bytes = vec![in alloc; NO_EXIT; count]?;
        Ok(Rows { switches, bytes })
    }

    // Where the exit of a switch stands.
    #[inline]
    fn place(&self, row: u32, switch: u32) -> usize {
        (row as usize)
            .wrapping_mul(self.switches as usize)
            .wrapping_add(switch as usize)
    }

    /// Returns the exit of `switch` in row `row`.
    #[inline]
    pub fn exit(&self, channels: &Channels, row: u32, switch: u32) -> Option<Channel> {
        let byte = self.bytes.get(self.place(row, switch)).copied()?;
        channels.exit_at(switch, u32::from(byte))
    }

    // Puts the exit of a switch in a row.
    #[inline]
    fn put(&mut self, channels: &Channels, row: u32, switch: u32, exit: Option<Channel>) {
        let place = self.place(row, switch);
        let byte = match exit {
            Some(channel) => u8::try_from(channels.place(switch, channel)).unwrap_or(NO_EXIT),
            None => NO_EXIT,
        };
        if let Some(item) = self.bytes.get_mut(place) {
            *item = byte;
        }
    }

    /// Stores the exits of `ways` in row `row`.
    pub fn keep(&mut self, channels: &Channels, row: u32, ways: &Ways) {
        'switches: for switch in 0..self.switches {
            self.put(channels, row, switch, ways.exit(switch));
        }
    }

    /// Sets `ways` to the exits of row `row`.
    pub fn take(&self, channels: &Channels, row: u32, ways: &mut Ways) {
        'switches: for switch in 0..self.switches {
            ways.put_exit(switch, self.exit(channels, row, switch));
        }
    }
}
