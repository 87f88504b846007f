//! A switch, and what happens to it, one line each.

ghost use Rattle.std.specs.Prelude.{◌≡◌, ◌<◌, ◌^◌, false};
ghost use Rattle.switch_core.specs.Kept.{IsWorking, carried};

use crate::answer::{push_note, push_out, push_table};
use crate::fault::Fault;
use crate::happening::{Happening, happening_of};
use an_base::life::Life;
use an_base::port::Sample;
use std::alloc::Global;
use switch_core::out::Out;
use switch_core::switch::{ClockRefusal, MOST_CARRIED, MOST_WORKS, Switch};

// Starts a new switch.
fn start(alloc: Global, life: Life, epoch: u64, had: u8, any: bool) -> Result<Switch, Fault> {
    if had < 1 {
        return Err(Fault::Number);
    }
    if had > 126 {
        return Err(Fault::Number);
    }
    Ok(Switch::start(alloc, life, epoch, had, any)?)
}

// Reports whether a switch takes no more clocks and frames.
fn is_over(switch: &Switch) -> bool
    ensures works { result ≡ false → switch.now.works < 2 ^ 60 }
    ensures carried { result ≡ false → carried switch.now < 2 ^ 28 }
    ensures working { result ≡ false → IsWorking switch.now }
{
    let is_full = switch.works() >= MOST_WORKS || switch.carried() >= MOST_CARRIED;
    is_full || switch.is_spent()
}

// Passes a clock event to a switch. Reports whether the epochs are spent.
fn clock(
    switch: &mut Switch,
    now: u64,
    samples: &[Sample; 12],
    out: &mut Out,
) -> Result<bool, Fault> {
    if is_over(switch) {
        return Err(Fault::Stopped);
    }
    match switch.clock(now, samples, out) {
        Ok(()) => Ok(false),
        Err(ClockRefusal::EpochsSpent) => Ok(true),
        Err(ClockRefusal::OutOfMemory) => Err(Fault::OutOfMemory),
    }
}

// Passes bytes that came by a port to a switch.
fn handle(switch: &mut Switch, bytes: &[u8], port: u8, out: &mut Out) -> Result<(), Fault> {
    if is_over(switch) {
        return Err(Fault::Stopped);
    }
    if port < 1 {
        return Err(Fault::Number);
    }
    if port > 12 {
        return Err(Fault::Number);
    }
    Ok(switch.handle(bytes, port, out)?)
}

// Loads the table.
fn load(switch: &mut Switch, text: &mut String) -> Result<(), Fault> {
    if !switch.load_due() {
        return Err(Fault::NotDue);
    }
    let loaded = switch.load()?;
    Ok(push_table(text, switch, &loaded)?)
}

/// A switch, if one was started, with its outgoing frames and the output for the last line.
#[derive(Drop)]
pub struct Trace {
    alloc: Global,
    switch: Option<Switch>,
    out: Out,
    text: String,
}

impl Trace {
    /// Creates a trace without a switch.
    pub fn new(alloc: Global) -> Self {
        Trace {
            alloc,
            switch: None,
            out: Out::new(alloc),
            text: String::new(alloc),
        }
    }

    /// Returns the output for the last line.
    pub fn text(&self) -> &str {
        self.text.as_str()
    }

    // Passes a clock event to the switch.
    fn clock(&mut self, now: u64, samples: &[Sample; 12]) -> Result<(), Fault> {
        let Some(switch) = &mut self.switch else {
            return Err(Fault::NoSwitch);
        };
        if clock(switch, now, samples, &mut self.out)? {
            self.text.push_str("spent\n")?;
        }
        Ok(push_out(self.alloc, &mut self.text, &self.out)?)
    }

    // Passes bytes that came by a port to the switch.
    fn frame(&mut self, port: u8, bytes: &[u8]) -> Result<(), Fault> {
        let Some(switch) = &mut self.switch else {
            return Err(Fault::NoSwitch);
        };
        handle(switch, bytes, port, &mut self.out)?;
        Ok(push_out(self.alloc, &mut self.text, &self.out)?)
    }

    // Loads the table.
    fn load(&mut self) -> Result<(), Fault> {
        match &mut self.switch {
            Some(switch) => load(switch, &mut self.text),
            None => Err(Fault::NoSwitch),
        }
    }

    // Makes something happen to the switch.
    fn happen(&mut self, happening: &Happening) -> Result<(), Fault> {
        match happening {
            Happening::Start {
                life,
                epoch,
                had,
                any,
            } => {
                self.switch = Some(start(self.alloc, *life, *epoch, *had, *any)?);
                Ok(())
            }
            Happening::Clock { now, samples } => self.clock(*now, samples),
            Happening::Frame { port, bytes } => self.frame(*port, bytes),
            Happening::Load => self.load(),
        }
    }

    /// Makes happen what `line` describes.
    ///
    /// # Errors
    /// The `Fault` of the line, or of what it describes. The output is then unspecified.
    pub fn go_on(&mut self, line: &str) -> Result<(), Fault> {
        self.text.clear();
        let happening = happening_of(self.alloc, line)?;
        self.happen(&happening)?;
        match &self.switch {
            Some(switch) => Ok(push_note(&mut self.text, switch)?),
            None => Ok(()),
        }
    }
}
