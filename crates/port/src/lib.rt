// One downstream port of the hub, by value: its states, the line events, the 1 ms tick, the port features and the status bytes.
#![tactic(auto)]

ghost use Rattle.std.specs.Prelude.{◌≡◌, false, [], ◌∷◌, ◌≤◌};
ghost use Rattle.port.specs.Method.{answered};
ghost use Rattle.port.specs.Reaction.{new_port, ruled};
ghost use Rattle.port.specs.Events.{
  attach,
  detach,
  chirp,
  wake,
  port_error,
  over_current_on,
  over_current_off,
  line_event,
};
ghost use Rattle.port.specs.Tick.{ticked};
ghost use Rattle.port.specs.Features.{
  set_power,
  set_reset,
  set_suspend,
  clear_power,
  clear_enable,
  clear_suspend,
  reset_speed,
  change_cleared,
  feature_set,
  feature_cleared,
};
ghost use Rattle.port.specs.Configuration.{configured, unconfigured};
ghost use Rattle.port.specs.Input.{stepped_by};
ghost use Rattle.port.specs.Numbers.{state_number, speed_number, device_speed, state_speed, ticks_so_far};
ghost use Rattle.port.specs.FromNumbers.{speed_of, state_of};
ghost use Rattle.port.specs.Status.{
  port_connection,
  port_enable,
  port_suspend,
  port_reset,
  port_power,
  port_low_speed,
  port_high_speed,
  byte_of,
  change_low,
  status_bytes,
  has_change,
};
ghost use Rattle.port.specs.Claims.{PortClaims};
ghost use Rattle.port.specs.Mistakes.{EnableMistakesShutOut};

mod words;

// A port's number, counted from 1.
#[derive(Clone, Copy, PartialEq, Eq)]
pub struct PortNumber(pub u32);

// How many ports a hub has.
#[derive(Clone, Copy, PartialEq, Eq)]
pub struct PortCount(pub u8);

#[derive(Clone, Copy, PartialEq, Eq)]
pub enum Speed {
    Low,
    Full,
    High,
}

// A connected state has the speed; Resetting and Resuming have the ticks so far.
#[derive(Clone, Copy, PartialEq, Eq)]
pub enum PortState {
    NotConfigured,
    PoweredOff,
    Disconnected,
    Disabled(Speed),
    Resetting(Speed, u8),
    Enabled(Speed),
    Suspended(Speed),
    Resuming(Speed, u8),
}

#[derive(Clone, Copy, PartialEq, Eq)]
pub enum ChangeBit {
    Connection,
    Enable,
    Suspend,
    OverCurrent,
    Reset,
}

// C_PORT_CONNECTION, C_PORT_ENABLE, C_PORT_SUSPEND, C_PORT_OVER_CURRENT and C_PORT_RESET.
#[derive(Clone, Copy, Default, PartialEq, Eq)]
pub struct Changes {
    pub connection: bool,
    pub enable: bool,
    pub suspend: bool,
    pub overcurrent: bool,
    pub reset: bool,
}

// overcurrent is the over-current level.
#[derive(Clone, Copy, PartialEq, Eq)]
pub struct Port {
    pub state: PortState,
    pub overcurrent: bool,
    pub changes: Changes,
}

#[derive(Clone, Copy, PartialEq, Eq)]
pub enum LineEvent {
    AttachLow,
    AttachFull,
    Detach,
    Chirp,
    Wake,
    PortError,
    OverCurrentOn,
    OverCurrentOff,
}

#[derive(Clone, Copy, PartialEq, Eq)]
pub enum SettableFeature {
    Suspend,
    Reset,
    Power,
}

#[derive(Clone, Copy, PartialEq, Eq)]
pub enum ClearableFeature {
    Enable,
    Suspend,
    Power,
    Change(ChangeBit),
}

// All that acts on a port: line events, the 1 ms tick, SetPortFeature and ClearPortFeature, SetConfiguration 1 and 0, bus reset.
#[derive(Clone, Copy, PartialEq, Eq)]
pub enum Input {
    Event(LineEvent),
    Tick,
    SetFeature(SettableFeature),
    ClearFeature(ClearableFeature),
    Configure,
    Unconfigure,
    BusReset,
}

// A line event in a state where it isn't named: nothing changes. No other step can fail.
#[derive(Clone, Copy, PartialEq, Eq)]
pub struct NotInThisState;

impl Port {
    // The port of a new hub.
    pub fn new() -> Port
        ensures { result ≡ new_port }
    {
        Port {
            state: PortState::NotConfigured,
            overcurrent: false,
            changes: Changes::default(),
        }
    }

    // Any input, by the method that it has.
    pub fn step(self, input: Input) -> Result<Port, NotInThisState>
        ensures { answered self result ≡ stepped_by self input }
    {
        Ok(match input {
            Input::Event(event) => self.line_event(event)?,
            Input::Tick => self.tick(),
            Input::SetFeature(feature) => self.set_feature(feature),
            Input::ClearFeature(feature) => self.clear_feature(feature),
            Input::Configure => self.configure(),
            Input::Unconfigure => self.unconfigure(),
            Input::BusReset => Port::new(),
        })
    }

    pub fn line_event(self, event: LineEvent) -> Result<Port, NotInThisState>
        ensures { answered self result ≡ line_event self event }
    {
        match event {
            LineEvent::AttachLow => self.attach(Speed::Low),
            LineEvent::AttachFull => self.attach(Speed::Full),
            LineEvent::Detach => self.detach(),
            LineEvent::Chirp => self.chirp(),
            LineEvent::Wake => self.wake(),
            LineEvent::PortError => self.port_error(),
            LineEvent::OverCurrentOn => self.over_current_on(),
            LineEvent::OverCurrentOff => self.over_current_off(),
        }
    }

    // One millisecond.
    pub fn tick(self) -> Port
        ensures { result ≡ ticked self }
    {
        let mut next = self;
        match self.state {
            PortState::Resetting(speed, ticks) if ticks < 14 => {
                next.state = PortState::Resetting(speed, ticks + 1);
            }
            PortState::Resetting(speed, _) => {
                next.state = PortState::Enabled(speed);
                next.changes.reset = true;
            }
            PortState::Resuming(speed, ticks) if ticks < 21 => {
                next.state = PortState::Resuming(speed, ticks + 1);
            }
            PortState::Resuming(speed, _) => {
                next.state = PortState::Enabled(speed);
                next.changes.suspend = true;
            }
            _ => {}
        }
        next
    }

    pub fn set_feature(self, feature: SettableFeature) -> Port
        ensures { result ≡ feature_set self feature }
    {
        match feature {
            SettableFeature::Suspend => self.set_suspend(),
            SettableFeature::Reset => self.set_reset(),
            SettableFeature::Power => self.set_power(),
        }
    }

    pub fn clear_feature(self, feature: ClearableFeature) -> Port
        ensures { result ≡ feature_cleared self feature }
    {
        match feature {
            ClearableFeature::Enable => self.clear_enable(),
            ClearableFeature::Suspend => self.clear_suspend(),
            ClearableFeature::Power => self.clear_power(),
            ClearableFeature::Change(bit) => self.clear_change(bit),
        }
    }

    // SetConfiguration 1.
    pub fn configure(self) -> Port
        ensures { result ≡ configured self }
    {
        Port {
            state: PortState::PoweredOff,
            ..self
        }
    }

    // SetConfiguration 0.
    pub fn unconfigure(self) -> Port
        ensures { result ≡ unconfigured self }
    {
        Port {
            state: PortState::NotConfigured,
            overcurrent: false,
            ..self
        }
    }

    // The four bytes of GetPortStatus.
    pub fn status(self) -> [u8; 4]
        ensures { result ≡ status_bytes self }
    {
        let state = self.state;
        let low = byte_of(
            state.connection(),
            state.enable(),
            state.suspend(),
            self.overcurrent,
            state.reset(),
        );
        let high = byte_of(
            state.power(),
            state.low_speed(),
            state.high_speed(),
            false,
            false,
        );
        [low, high, self.changes.byte(), 0]
    }

    // Whether a change bit is set. By |: no branch for each bit, since a poll asks every port.
    pub fn changed(self) -> bool
        ensures { result ≡ has_change self.changes }
    {
        self.changes.connection
            | self.changes.enable
            | self.changes.suspend
            | self.changes.overcurrent
            | self.changes.reset
    }
}

// The line events.
impl Port {
    fn attach(self, speed: Speed) -> Result<Port, NotInThisState>
        ensures { answered self result ≡ ruled (attach speed) self }
    {
        if self.state != PortState::Disconnected {
            return Err(NotInThisState);
        }
        Ok(Port {
            state: PortState::Disabled(speed),
            changes: Changes {
                connection: true,
                ..self.changes
            },
            ..self
        })
    }

    fn detach(self) -> Result<Port, NotInThisState>
        ensures { answered self result ≡ ruled detach self }
    {
        match self.state {
            PortState::Disabled(_) | PortState::Enabled(_) | PortState::Suspended(_) => {
                Ok(Port {
                    state: PortState::Disconnected,
                    changes: Changes {
                        connection: true,
                        ..self.changes
                    },
                    ..self
                })
            }
            _ => Err(NotInThisState),
        }
    }

    fn chirp(self) -> Result<Port, NotInThisState>
        ensures { answered self result ≡ ruled chirp self }
    {
        match self.state {
            PortState::Resetting(Speed::Full, ticks) => Ok(Port {
                state: PortState::Resetting(Speed::High, ticks),
                ..self
            }),
            _ => Err(NotInThisState),
        }
    }

    fn wake(self) -> Result<Port, NotInThisState>
        ensures { answered self result ≡ ruled wake self }
    {
        match self.state {
            PortState::Suspended(speed) => Ok(Port {
                state: PortState::Resuming(speed, 0),
                ..self
            }),
            _ => Err(NotInThisState),
        }
    }

    // The only event that sets C_PORT_ENABLE (USB 2.0, 11.24.2.7.2.2).
    fn port_error(self) -> Result<Port, NotInThisState>
        ensures { answered self result ≡ ruled port_error self }
    {
        match self.state {
            PortState::Enabled(speed) => Ok(Port {
                state: PortState::Disabled(speed),
                changes: Changes {
                    enable: true,
                    ..self.changes
                },
                ..self
            }),
            _ => Err(NotInThisState),
        }
    }

    fn over_current_on(self) -> Result<Port, NotInThisState>
        ensures { answered self result ≡ ruled over_current_on self }
    {
        if self.state == PortState::NotConfigured {
            return Err(NotInThisState);
        }
        let mut next = self;
        if !self.overcurrent {
            next.state = PortState::PoweredOff;
            next.overcurrent = true;
            next.changes.overcurrent = true;
        }
        Ok(next)
    }

    fn over_current_off(self) -> Result<Port, NotInThisState>
        ensures { answered self result ≡ ruled over_current_off self }
    {
        if self.state == PortState::NotConfigured {
            return Err(NotInThisState);
        }
        let mut next = self;
        if self.overcurrent {
            next.overcurrent = false;
            next.changes.overcurrent = true;
        }
        Ok(next)
    }
}

// The port features.
impl Port {
    fn set_power(self) -> Port
        ensures { result ≡ (ruled set_power self).port }
    {
        match self.state {
            PortState::PoweredOff if !self.overcurrent => Port {
                state: PortState::Disconnected,
                ..self
            },
            _ => self,
        }
    }

    fn set_reset(self) -> Port
        ensures { result ≡ (ruled set_reset self).port }
    {
        match self.state {
            PortState::Disabled(speed)
            | PortState::Enabled(speed)
            | PortState::Suspended(speed)
            | PortState::Resuming(speed, _) => Port {
                state: PortState::Resetting(speed.after_reset(), 0),
                ..self
            },
            // The timer runs on.
            PortState::Resetting(_, _) => self,
            _ => self,
        }
    }

    fn set_suspend(self) -> Port
        ensures { result ≡ (ruled set_suspend self).port }
    {
        match self.state {
            PortState::Enabled(speed) => Port {
                state: PortState::Suspended(speed),
                ..self
            },
            _ => self,
        }
    }

    fn clear_enable(self) -> Port
        ensures { result ≡ (ruled clear_enable self).port }
    {
        match self.state {
            PortState::Resetting(speed, _)
            | PortState::Enabled(speed)
            | PortState::Suspended(speed)
            | PortState::Resuming(speed, _) => Port {
                state: PortState::Disabled(speed),
                ..self
            },
            _ => self,
        }
    }

    fn clear_suspend(self) -> Port
        ensures { result ≡ (ruled clear_suspend self).port }
    {
        match self.state {
            PortState::Suspended(speed) => Port {
                state: PortState::Resuming(speed, 0),
                ..self
            },
            _ => self,
        }
    }

    fn clear_power(self) -> Port
        ensures { result ≡ (ruled clear_power self).port }
    {
        Port {
            state: PortState::PoweredOff,
            ..self
        }
    }

    fn clear_change(self, bit: ChangeBit) -> Port
        ensures { result ≡ change_cleared self bit }
    {
        let changes = match bit {
            ChangeBit::Connection => Changes {
                connection: false,
                ..self.changes
            },
            ChangeBit::Enable => Changes {
                enable: false,
                ..self.changes
            },
            ChangeBit::Suspend => Changes {
                suspend: false,
                ..self.changes
            },
            ChangeBit::OverCurrent => Changes {
                overcurrent: false,
                ..self.changes
            },
            ChangeBit::Reset => Changes {
                reset: false,
                ..self.changes
            },
        };
        Port { changes, ..self }
    }
}

// A state in numbers, and back.
impl PortState {
    pub fn number(self) -> u8
        ensures { result ≡ state_number self }
    {
        match self {
            PortState::NotConfigured => 0,
            PortState::PoweredOff => 1,
            PortState::Disconnected => 2,
            PortState::Disabled(_) => 3,
            PortState::Resetting(_, _) => 4,
            PortState::Enabled(_) => 5,
            PortState::Suspended(_) => 6,
            PortState::Resuming(_, _) => 7,
        }
    }

    pub fn speed(self) -> u8
        ensures { result ≡ state_speed self }
    {
        self.device_speed().map_or(0, Speed::number)
    }

    pub fn ticks(self) -> u8
        ensures { result ≡ ticks_so_far self }
    {
        match self {
            PortState::Resetting(_, ticks) | PortState::Resuming(_, ticks) => ticks,
            _ => 0,
        }
    }
}

// Not Configured where no state has the number.
pub fn state_of(n: u8, speed: Speed, ticks: u8) -> PortState
    ensures { result ≡ state_of n speed ticks }
{
    match n {
        1 => PortState::PoweredOff,
        2 => PortState::Disconnected,
        3 => PortState::Disabled(speed),
        4 => PortState::Resetting(speed, ticks),
        5 => PortState::Enabled(speed),
        6 => PortState::Suspended(speed),
        7 => PortState::Resuming(speed, ticks),
        _ => PortState::NotConfigured,
    }
}

// Low where no speed has the number.
pub fn speed_of(n: u8) -> Speed
    ensures { result ≡ speed_of n }
{
    match n {
        1 => Speed::Full,
        2 => Speed::High,
        _ => Speed::Low,
    }
}

impl Speed {
    pub fn number(self) -> u8
        ensures value { result ≡ speed_number self }
        ensures small { result ≤ 2 }
    {
        self as u8
    }

    // Set PORT_RESET makes a high-speed port full speed.
    fn after_reset(self) -> Speed
        ensures { result ≡ reset_speed self }
    {
        match self {
            Speed::Low => Speed::Low,
            Speed::Full | Speed::High => Speed::Full,
        }
    }
}

// The status bits that the state decides.
impl PortState {
    fn connection(self) -> bool
        ensures { result ≡ port_connection self }
    {
        !matches!(
            self,
            PortState::NotConfigured | PortState::PoweredOff | PortState::Disconnected
        )
    }

    fn enable(self) -> bool
        ensures { result ≡ port_enable self }
    {
        matches!(
            self,
            PortState::Enabled(_) | PortState::Suspended(_) | PortState::Resuming(_, _)
        )
    }

    fn suspend(self) -> bool
        ensures { result ≡ port_suspend self }
    {
        matches!(self, PortState::Suspended(_) | PortState::Resuming(_, _))
    }

    fn reset(self) -> bool
        ensures { result ≡ port_reset self }
    {
        matches!(self, PortState::Resetting(_, _))
    }

    fn power(self) -> bool
        ensures { result ≡ port_power self }
    {
        !matches!(self, PortState::NotConfigured | PortState::PoweredOff)
    }

    fn low_speed(self) -> bool
        ensures { result ≡ port_low_speed self }
    {
        self.device_speed() == Some(Speed::Low)
    }

    fn high_speed(self) -> bool
        ensures { result ≡ port_high_speed self }
    {
        self.device_speed() == Some(Speed::High)
    }

    // The speed in a connected state.
    pub fn device_speed(self) -> Option<Speed>
        ensures { result ≡ device_speed self }
    {
        match self {
            PortState::Disabled(speed)
            | PortState::Resetting(speed, _)
            | PortState::Enabled(speed)
            | PortState::Suspended(speed)
            | PortState::Resuming(speed, _) => Some(speed),
            _ => None,
        }
    }
}

impl Changes {
    // Bits 0 to 7 of the change word.
    pub fn byte(self) -> u8
        ensures { result ≡ byte_of (change_low self) }
    {
        byte_of(
            self.connection,
            self.enable,
            self.suspend,
            self.overcurrent,
            self.reset,
        )
    }
}

// The byte with these bits, bit 0 first; bits 5 to 7 are zero.
fn byte_of(b0: bool, b1: bool, b2: bool, b3: bool, b4: bool) -> u8
    ensures { result ≡ byte_of (b0 ∷ b1 ∷ b2 ∷ b3 ∷ b4 ∷ false ∷ false ∷ false ∷ []) }
{
    bools::bit_of(b0)
        + 2 * bools::bit_of(b1)
        + 4 * bools::bit_of(b2)
        + 8 * bools::bit_of(b3)
        + 16 * bools::bit_of(b4)
}

// What holds of every port; the function does nothing.
fn port_claims()
    ensures { PortClaims }
{}

// Rules with one mistake in what sets C_PORT_ENABLE break the claim on it; the function does nothing.
fn enable_mistakes_shut_out()
    ensures { EnableMistakesShutOut }
{}
